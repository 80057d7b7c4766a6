// Comparing two lists.
ghost use Rattle.std.specs.Prelude.{◌≡◌};
ghost use Rattle.ordered.specs.Orders.{StrictTotal, comparison, list_less};

use crate::order::TotalOrder;
use std::cmp::Ordering;

// The lesser item at the first difference decides; a beginning is less than the whole.
// Lists are thereby totally ordered themselves. It is written out and no call of std's `cmp`: the project asks for one comparison of lists, by `less`.
pub fn compare<T: TotalOrder>(xs: &[T], ys: &[T]) -> Ordering
    ensures value { result ≡ comparison T.less xs.now ys.now }
    ensures total { StrictTotal (list_less T.less) }
{
    for (x, y) in xs.iter().zip(ys) {
        match x.order(y) {
            Ordering::Equal => {}
            decided => return decided,
        }
    }
    xs.len().cmp(&ys.len())
}
