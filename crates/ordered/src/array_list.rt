// A list with a fixed room, held by value.
ghost use Rattle.std.specs.Prelude.{◌≡◌, ◌-◌, ⊤, ◌≤◌, length, drop, replicate};

use crate::filler::Filler;
use std::alloc::AllocError;

// There is no room for one item more.
#[derive(Clone, Copy, PartialEq, Eq, Debug)]
pub struct Full;

// A list of at most N items. Behind them lie blanks, so that equal lists are equal values.
pub struct ArrayList<T: Filler, const N: usize> {
    pub(crate) slots: [T; N],
    pub(crate) count: usize,
    ghost few: { count ≤ N },
    ghost space: { length slots ≡ N },
    ghost blank: { drop count slots ≡ replicate (N - count) T.blank },
}

// By hand: a clone is not derived where there is a ghost field.
impl<T: Filler, const N: usize> Clone for ArrayList<T, N> {
    ghost is_clone = { λ x y. y ≡ x };

    ghost is_infallible = { λ _. ⊤ };

    fn clone(&self) -> Result<ArrayList<T, N>, AllocError> {
        Ok(*self)
    }
}

impl<T: Filler, const N: usize> Copy for ArrayList<T, N> {}
