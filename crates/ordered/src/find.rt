// Finding an item in a list.
ghost use Rattle.std.specs.Prelude.{◌≡◌};
ghost use Rattle.ordered.specs.Lookups.{lookup};

use crate::order::TotalOrder;
use std::cmp::Ordering;

// The first place whose item is not less than `x`: `Ok` if that item is `x`, and `Err` if it is not. An ascending list has `x` exactly if it is found.
// It goes through the list from its beginning and not by halves, since the answer is defined also for lists that do not ascend.
pub fn find<T: TotalOrder>(xs: &[T], x: &T) -> Result<usize, usize>
    ensures { result ≡ lookup T.less x.now xs.now }
{
    for (i, y) in xs.iter().enumerate() {
        match y.order(x) {
            Ordering::Less => {}
            Ordering::Equal => return Ok(i),
            Ordering::Greater => return Err(i),
        }
    }
    Err(xs.len())
}
