// A source that lets through what passes a condition.
ghost use Rattle.std.specs.Prelude.{◌≡◌};
ghost use Rattle.sources.specs.Sources.{sieved};

use crate::condition::Condition;
use crate::source::Source;
use lattice::refusal::Refusal;
use shapes::entry::Entry;

// A source that is made over a source and a condition. Of both lists below it has the entries that pass. Its conditions are this one above
// those below, and what the lowest source has ahead is as it was.
pub trait Over<S: Source, C: Condition>: Source + Sized {
    fn over(source: S, condition: C) -> Self
        ensures { Self.Source.stands result ≡ sieved (C.Condition.passing condition) (S.Source.stands source) };
}

#[derive(Drop)]
pub struct Sieve<S: Source, C: Condition> {
    source: S,
    condition: C,
}

impl<S: Source, C: Condition> Source for Sieve<S, C> {
    ghost stands = { λ s. sieved (C.Condition.passing s.condition) (S.Source.stands s.source) };

    fn next(&mut self, out: &mut Entry) -> Result<(), Refusal> {
        let mut found = *out;
        loop {
            self.source.next(&mut found)?;
            if self.condition.passes(&found) {
                *out = found;
                return Ok(());
            }
        }
    }
}

impl<S: Source, C: Condition> Over<S, C> for Sieve<S, C> {
    fn over(source: S, condition: C) -> Sieve<S, C> {
        Sieve { source, condition }
    }
}
