// Inserting an item into an ascending list.
ghost use Rattle.std.specs.Prelude.{◌≡◌, take};
ghost use Rattle.ordered.specs.Orders.{Ascending};
ghost use Rattle.ordered.specs.Lookups.{inserted, insertion, slots_after};

use crate::find::find;
use crate::order::TotalOrder;

// Why an item was not inserted: it is present at a place, or the slots are full.
#[derive(Clone, Copy, PartialEq, Eq, Debug)]
pub enum NotInserted {
    Present(usize),
    Full,
}

// The slots come with a count beside them: the project asks for an insertion over slices. `ArrayList` has the two in one.
// Inserts `item` into the list of the first `count` slots, before the first item that is not less, and tells its place.
pub fn insert<T: TotalOrder + Copy>(
    slots: &mut [T],
    count: usize,
    item: T,
) -> Result<usize, NotInserted>
    ensures answer { result ≡ insertion T.less item count slots.old }
    ensures after { slots.new ≡ slots_after result (inserted T.less item (take count slots.old)) slots.old }
    ensures ascends { Ascending T.less (take count slots.old) → Ascending T.less (inserted T.less item (take count slots.old)) }
{
    let used = count.min(slots.len());
    match find(&slots[0..used], &item) {
        Ok(at) => Err(NotInserted::Present(at)),
        Err(at) => {
            if used == slots.len() {
                return Err(NotInserted::Full);
            }
            slots[used] = item;
            slots[at..used + 1].rotate_right(1);
            Ok(at)
        }
    }
}
