// Calls of a lister, and their answers.
ghost use Rattle.std.specs.Prelude.{◌≡◌};
ghost use Rattle.listing.specs.declared.calls.Stop.TheVariants.{Opening as not_opened, Memory as no_memory};

use crate::whereabouts::Whereabouts;
use lattice::refusal::Refusal;
use shapes::entry::Entry;
use shapes::shape::Shape;
use std::alloc::AllocFailed;

// A next, or the question where the class of a shape is.
#[derive(Clone, Copy)]
pub enum Call {
    Next,
    Ask(Shape),
}

// What a call answers: an entry is handed out, a next is refused, or it is told where a class is.
#[derive(Clone, Copy)]
pub enum Answer {
    Handed(Entry),
    Refused(Refusal),
    Told(Whereabouts),
}

// Why a run did not come to its end: the lister was not opened, or there was no memory for one more answer.
#[derive(Clone, Copy, PartialEq, Eq, Debug)]
pub enum Stop {
    Opening(Refusal),
    Memory,
}

impl From<Refusal> for Stop {
    ghost from_gives = { λ e r. r ≡ not_opened e };

    fn from(refusal: Refusal) -> Stop {
        Stop::Opening(refusal)
    }
}

impl<T: Drop> From<AllocFailed<T>> for Stop {
    ghost from_gives = { λ _ r. r ≡ no_memory };

    fn from(_refused: AllocFailed<T>) -> Stop {
        Stop::Memory
    }
}
