// An ascending list of motion numbers.
ghost use Rattle.std.specs.Prelude.{◌≡◌, ℕ, ◌<◌, ◌≤◌, length, slice_index, slice_index_or};
ghost use Rattle.std.specs.List.Sorted.{IsStrictlyIncreasing};
ghost use Rattle.ordered.specs.Items.{items_of};

use ordered::array_list::ArrayList;

// 1 to 48 motion numbers up to 47, ascending, the first of them 0. Sets with the same numbers are equal values.
#[derive(Clone, Copy)]
pub struct MotionSet {
    pub(crate) motions: ArrayList<u8, 48>,
    ghost some: { 1 ≤ length (items_of motions) },
    ghost few: { length (items_of motions) ≤ 48 },
    ghost ascending: { IsStrictlyIncreasing (items_of motions) },
    ghost small: { ((k : ℕ) → k < length (items_of motions) → slice_index (items_of motions) k < 48) },
    ghost zero: { slice_index_or (items_of motions) 0 1 ≡ 0 },
}
