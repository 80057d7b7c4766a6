// What lies behind the items of a list that is held by value.
ghost use Rattle.std.specs.Prelude.{◌≡◌};
ghost use Rattle.std.proofs.Common.{rules};

// A kind of item of which one, the blank, stands where there is no item. It is the default one.
pub trait Filler: Copy + Default {
    ghost blank: { Self };

    ghost by_default: { (x : Self) → Self.is_default x → x ≡ blank };
}

impl Filler for u8 {
    ghost blank = { 0 };

    ghost by_default = { Prim.search rules };
}

impl Filler for usize {
    ghost blank = { 0 };

    ghost by_default = { Prim.search rules };
}
