// The interface of a source of entries.
ghost use Rattle.sources.specs.Sources.{Standing, Stepped};

use lattice::refusal::Refusal;
use shapes::entry::Entry;

// A source means two lists of entries, behind and ahead.
pub trait Source {
    ghost stands: { Self → Standing };

    // What a next leaves as it is, besides.
    ghost kept: { Self → Self → Type 0 } = { λ _ _. Unit {0} };

    // The entry is written to the caller's and is no value of `Ok`: the project asks for that, so that a refusal leaves what the caller has.
    // With entries ahead, writes the first of them to `out` and moves it to the end of behind. With none, refuses by 6 and changes nothing;
    // the lowest source of a pile of sieves is then through.
    fn next(&mut self, out: &mut Entry) -> Result<(), Refusal>
        ensures step { Stepped (stands self.old) out.old result (stands self.new) out.new }
        ensures others { kept self.old self.new };
}
