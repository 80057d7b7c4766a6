// The law of whole runs.
ghost use Rattle.std.specs.Prelude.{◌≡◌, ℕ, ◌≤◌, true, [], length, is_ok, Ok, Err};
ghost use Rattle.shapes.specs.Classes.{ClassLaws};
ghost use Rattle.listing.specs.Made.{listing};
ghost use Rattle.listing.specs.Openings.{Opening, opening_for};
ghost use Rattle.listing.specs.Runs.{Right, RightRun, ListedRun, RightNexts, Stopped};
ghost use Rattle.sources.specs.Sources.{ahead, sift, standing};
ghost use Rattle.listing.specs.Turns.{Replied, Answered, Made};

use crate::calls::{Answer, Call, Stop};
use crate::listings::Listing;
use lattice::lattice::Lattice;
use shapes::entry::Entry;
use sources::source::Source;

// One next of any source, and its answer.
fn one_next<S: Source>(source: &mut S) -> Answer
    ensures step { Replied (S.stands source.old) result (S.stands source.new) }
    ensures others { S.kept source.old source.new }
{
    let mut entry = Entry::blank();
    match source.next(&mut entry) {
        Ok(()) => Answer::Handed(entry),
        Err(refusal) => Answer::Refused(refusal),
    }
}

// One call of a lister, and its answer.
fn one_call<L: Lattice, T: Listing<L>>(lister: &mut T, call: Call) -> Answer
    ensures { (o : Opening) → T.Listing.opened lister.old o → Answered o (T.Source.stands lister.old) call result (T.Source.stands lister.new) × T.Listing.opened lister.new o }
{
    match call {
        Call::Next => one_next(lister),
        Call::Ask(shape) => Answer::Told(lister.whereabouts(&shape)),
    }
}

// Makes nexts, and writes the answers down. Not one function with make_calls over a closure: the loops are one line, and their laws differ.
fn make_nexts<S: Source>(
    source: &mut S,
    nexts: usize,
    replies: &mut Vec<Answer>,
) -> Result<(), Stop>
    requires { replies.old.items ≡ [] }
    ensures right { RightNexts (ahead (S.stands source.old)) nexts replies.new.items }
    ensures ran { Made (length replies.new.items) nexts result }
{
    for _k in 0..nexts {
        replies.push(one_next(source))?;
    }
    Ok(())
}

// Makes calls of a lister that was just opened, and writes the answers down.
fn make_calls<L: Lattice, T: Listing<L>>(
    lister: &mut T,
    calls: &[Call],
    answers: &mut Vec<Answer>,
) -> Result<(), Stop>
    requires { answers.old.items ≡ [] }
    ensures right { (o : Opening) → T.Listing.opened lister.old o → T.Source.stands lister.old ≡ standing [] (listing o) → ClassLaws o.directions o.motions o.set → 1 ≤ o.size → RightRun (Right o (listing o)) (listing o) calls.now answers.new.items }
    ensures ran { Made (length answers.new.items) (length calls.now) result }
{
    for call in calls {
        answers.push(one_call(lister, *call))?;
    }
    Ok(())
}

// The law of whole runs. A lister is opened and given the calls one by one; a pile of sieves, or any other source, is given nexts.
// Each answer is written down; what the two lists held before is gone. Where memory runs out, the law holds of the answers
// written down, which are those to the first calls. Lattice, size and kind stand apart, as a lister is opened by them as numbers.
pub fn transcribe<L: Lattice, T: Listing<L> + Drop, P: Source>(
    lattice: L,
    size: usize,
    kind: u8,
    calls: &[Call],
    answers: &mut Vec<Answer>,
    pile: &mut P,
    nexts: usize,
    replies: &mut Vec<Answer>,
) -> Result<(), Stop>
    ensures opening { Stopped (opening_for (L.Lattice.directions lattice) (L.Lattice.motions lattice) (L.Lattice.onesided lattice) size kind) result }
    ensures lister { (o : Opening) → opening_for (L.Lattice.directions lattice) (L.Lattice.motions lattice) (L.Lattice.onesided lattice) size kind ≡ Ok o → ListedRun o calls.now answers.new.items }
    ensures unopened { (n : ℕ) → opening_for (L.Lattice.directions lattice) (L.Lattice.motions lattice) (L.Lattice.onesided lattice) size kind ≡ Err n → (answers.new.items ≡ []) × (replies.new.items ≡ []) }
    ensures sieves { RightNexts (sift (P.Source.stands pile.old).conditions (P.Source.stands pile.old).lowest) nexts replies.new.items }
    ensures whole { is_ok result ≡ true → (length answers.new.items ≡ length calls.now) × (length replies.new.items ≡ nexts) }
{
    answers.clear();
    replies.clear();
    let mut lister = T::open(lattice, size, kind)?;
    make_calls(&mut lister, calls, answers)?;
    make_nexts(pile, nexts, replies)
}
