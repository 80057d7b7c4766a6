// Cells in their order, and how far they reach.
ghost use Rattle.std.specs.Prelude.{◌≡◌, ◌∷◌, ◌++◌, Some};
ghost use Rattle.std.specs.Fmt.{signed_decimal};
ghost use Rattle.std.specs.Cmp.{partial_order_from_own_ties};
ghost use Rattle.std.specs.Cmp.Rules.{comparing};
ghost use Rattle.std.specs.Ordering.{as_partial_cmp, int_cmp, on, then_cmp};
ghost use Rattle.std.proofs.Common.{rules};
ghost use Rattle.std.specs.Option.{SomeIff};
ghost use Rattle.lattice.specs.Cells.{origin, cell_less, from_to, in_reach, plus, Fits};
ghost use Rattle.lattice.specs.Coordinates.{cell_order, cell_ranked};

use crate::cell::Cell;
use ordered::filler::Filler;
use ordered::order::TotalOrder;
use std::cmp::Ordering;
use std::fmt;

// How far from 0 a coordinate may be for a lattice to answer.
const REACH: i8 = 15;

fn is_near(coordinate: i8) -> bool
    ensures { result ≡ from_to 15 coordinate }
{
    -REACH <= coordinate && coordinate <= REACH
}

// By c, then b, then a. A derive would begin with a, since cells are written (a, b, c).
impl Ord for Cell {
    ghost cmp = { then_cmp (on (λ x. x.c) int_cmp) (then_cmp (on (λ x. x.b) int_cmp) (on (λ x. x.a) int_cmp)) };

    ghost total = { Prim.search (comparing, rules) };

    ghost matches_partial_cmp = { Prim.search (comparing, rules) };

    ghost matches_eq = { Prim.search (comparing, rules) };

    fn cmp(&self, other: &Cell) -> Ordering {
        self.c
            .cmp(&other.c)
            .then(self.b.cmp(&other.b))
            .then(self.a.cmp(&other.a))
    }
}

impl PartialOrd for Cell {
    ghost partial_cmp = { as_partial_cmp (then_cmp (on (λ x. x.c) int_cmp) (then_cmp (on (λ x. x.b) int_cmp) (on (λ x. x.a) int_cmp))) };

    ghost laws = { partial_order_from_own_ties (Prim.search (comparing, rules)) (Prim.search (comparing, rules)) };

    fn partial_cmp(&self, other: &Cell) -> Option<Ordering> {
        Some(self.cmp(other))
    }
}

impl TotalOrder for Cell {
    ghost less = { cell_less };

    ghost total = { cell_order };

    fn order(&self, other: &Cell) -> Ordering {
        self.cmp(other)
    }
}

impl Filler for Cell {
    ghost blank = { origin };

    ghost by_default = { Prim.search rules };
}

impl Cell {
    pub const ORIGIN: Cell = Cell { a: 0, b: 0, c: 0 };

    // The sum, coordinate by coordinate; none if it is no cell.
    pub fn checked_add(self, step: Cell) -> Option<Cell>
        ensures { SomeIff result (Fits (plus self step)) (plus self step) }
    {
        Some(Cell {
            a: self.a.checked_add(step.a)?,
            b: self.b.checked_add(step.b)?,
            c: self.c.checked_add(step.c)?,
        })
    }

    // Every coordinate lies from −15 to 15.
    pub fn is_in_reach(self) -> bool
        ensures { result ≡ in_reach self }
    {
        is_near(self.a) && is_near(self.b) && is_near(self.c)
    }
}

// As a text has it: `1,0,0`.
impl fmt::Display for Cell {
    ghost output = { λ x. Some (signed_decimal x.a ++ (44 ∷ signed_decimal x.b) ++ (44 ∷ signed_decimal x.c)) };

    fn fmt<W: fmt::Write>(&self, f: &mut fmt::Formatter<W>) -> fmt::Result {
        let Cell { a, b, c } = *self;
        write!(f, "{a},{b},{c}")
    }
}
