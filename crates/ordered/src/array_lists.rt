// Making lists with a fixed room, and putting items into them.
ghost use Rattle.std.specs.Prelude.{◌≡◌, ◌≤◌, [], length, is_ok, nat_lt};
ghost use Rattle.std.specs.Result.{result_map_both};
ghost use Rattle.ordered.specs.Items.{items_of};
ghost use Rattle.ordered.specs.Lookups.{inserted, insertion_at, after_insertion};
ghost use Rattle.ordered.specs.Rooms.{filled_up, listed, pushed};

use crate::array_list::{ArrayList, Full};
use crate::filler::Filler;
use crate::insert::{NotInserted, insert};
use crate::order::TotalOrder;

impl<T: Filler, const N: usize> Default for ArrayList<T, N> {
    ghost is_default = { λ xs. items_of xs ≡ [] };

    fn default() -> ArrayList<T, N> {
        Self::new()
    }
}

impl<T: Filler, const N: usize> ArrayList<T, N> {
    pub fn new() -> ArrayList<T, N>
        ensures { items_of result ≡ [] }
    {
        ArrayList {
            slots: [T::default(); N],
            count: 0,
        }
    }

    // The list of some items, if there is room for them.
    pub fn from_slice(items: &[T]) -> Result<ArrayList<T, N>, Full>
        ensures { result_map_both items_of (λ e. e) result ≡ listed N items.now }
    {
        if items.len() > N {
            return Err(Full);
        }
        let mut slots = [T::default(); N];
        slots[..items.len()].copy_from_slice(items);
        Ok(ArrayList {
            slots,
            count: items.len(),
        })
    }

    // Its items say what all its slots hold: lists of the same items are the same value.
    pub fn as_slice(&self) -> &[T]
        ensures value { result.now ≡ items_of self.now }
        ensures few { length (items_of self.now) ≤ N }
        ensures filled { self.now.slots ≡ filled_up N T.blank (items_of self.now) }
    {
        let slots = &self.slots[..];
        &slots[0..self.count]
    }

    pub fn len(&self) -> usize
        ensures value { result ≡ length (items_of self.now) }
        ensures few { result ≤ N }
    {
        self.as_slice().len()
    }

    // Puts an item behind the others.
    pub fn push(&mut self, item: T) -> Result<(), Full>
        ensures value { is_ok result ≡ nat_lt (length (items_of self.old)) N }
        ensures after { items_of self.new ≡ pushed N item (items_of self.old) }
        ensures few { length (items_of self.new) ≤ N }
    {
        if self.count == N {
            return Err(Full);
        }
        self.slots[self.count] = item;
        self.count += 1;
        Ok(())
    }
}

impl<T: Filler + TotalOrder, const N: usize> ArrayList<T, N> {
    // Puts an item before the first that is not less, unless it is that one, and tells its place.
    pub fn insert(&mut self, item: T) -> Result<usize, NotInserted>
        ensures value { result ≡ insertion_at T.less item N (items_of self.old) }
        ensures after { items_of self.new ≡ after_insertion result (inserted T.less item (items_of self.old)) (items_of self.old) }
        ensures few { length (items_of self.new) ≤ N }
    {
        let place = insert(&mut self.slots, self.count, item)?;
        self.count += 1;
        Ok(place)
    }
}
