// The condition that certain motions leave a shape as it is.
ghost use Rattle.std.specs.Prelude.{◌≡◌};
ghost use Rattle.sources.specs.Conditions.{has_all};

use crate::condition::Condition;
use shapes::entry::Entry;

// Passes the entries whose stabiliser has all of these motion numbers, whatever numbers they are; with none, it passes all.
// Each is looked up in the stabiliser, which ascends, by the search that all ordered lists share.
#[derive(Clone, Copy)]
pub struct Symmetry<'a> {
    motions: &'a [u8],
}

impl<'a> Symmetry<'a> {
    pub fn new(motions: &'a [u8]) -> Symmetry<'a>
        ensures { result.motions.now ≡ motions.now }
    {
        Symmetry { motions }
    }
}

impl Condition for Symmetry<'_> {
    ghost passing = { λ s e. has_all s.motions.now e.motions };

    fn passes(&self, entry: &Entry) -> bool {
        self.motions
            .iter()
            .all(|motion| entry.stabiliser.contains(*motion))
    }
}
