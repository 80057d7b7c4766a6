// Items that have a total order.
ghost use Rattle.std.specs.Prelude.{◌≡◌, Bool, nat_lt};
ghost use Rattle.ordered.specs.Orders.{StrictTotal, rank};
ghost use Rattle.std.proofs.Common.{rules};

use std::cmp::Ordering;

// A kind of item with a total order. `less` tells of two items whether the first is less.
// It asks for no `Ord`: an item may be ordered here in another way than by its own comparison, or have none.
pub trait TotalOrder {
    ghost less: { Self → Self → Bool };

    fn order(&self, other: &Self) -> Ordering
        ensures { result ≡ rank less self.now other.now };

    ghost total: { StrictTotal less };
}

impl TotalOrder for u8 {
    ghost less = { nat_lt };

    ghost total = { Prim.search rules };

    fn order(&self, other: &u8) -> Ordering {
        u8::cmp(self, other)
    }
}

impl TotalOrder for usize {
    ghost less = { nat_lt };

    ghost total = { Prim.search rules };

    fn order(&self, other: &usize) -> Ordering {
        self.cmp(other)
    }
}
