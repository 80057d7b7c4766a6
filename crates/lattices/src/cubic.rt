// The cubic lattice.
ghost use Rattle.std.specs.Prelude.{◌≡◌, ◌<◌, true, ◌*ℤ◌, refl};
ghost use Rattle.lattice.specs.Cells.{from_to};
ghost use Rattle.lattice.specs.Matrices.{image as carried};
ghost use Rattle.lattices.specs.Cubic.{cubic_name, cubic_directions, order_of, sign, signs, cubic_motions, cubic_one_sided};
ghost use Rattle.lattices.specs.CubicTable.{cubic_rules};

use crate::cubic_table::AFTER;
use crate::directions::direction;
use crate::near_cell::NearCell;
use lattice::cell::Cell;
use lattice::lattice::Lattice;

#[derive(Clone, Copy, PartialEq, Eq, Debug)]
pub struct Cubic;

const STEPS: [Cell; 6] = [
    Cell { a: 1, b: 0, c: 0 },
    Cell { a: 0, b: 1, c: 0 },
    Cell { a: 0, b: 0, c: 1 },
    Cell { a: -1, b: 0, c: 0 },
    Cell { a: 0, b: -1, c: 0 },
    Cell { a: 0, b: 0, c: -1 },
];

// The coordinates in the order that motions 8 * order to 8 * order + 7 have.
fn ordered(order: u8, x: NearCell) -> NearCell
    ensures { result.cell ≡ carried (order_of order) x.cell }
{
    let Cell { a, b, c } = x.cell;
    let cell = match order {
        0 => x.cell,
        1 => Cell { a: b, b: c, c: a },
        2 => Cell { a: c, b: a, c: b },
        3 => Cell { a, b: c, c: b },
        4 => Cell { a: b, b: a, c },
        _ => Cell { a: c, b, c: a },
    };
    NearCell { cell }
}

// The coordinate, negated where the bit is 1.
fn signed(bit: u8, z: i8) -> i8
    requires { from_to 15 z ≡ true }
    ensures { result ≡ sign bit *ℤ z }
{
    if bit == 1 { -z } else { z }
}

// Negates the coordinates where `bits` has the bit of weight 1, 2 or 4.
fn negated(bits: u8, x: NearCell) -> Cell
    ensures { result ≡ carried (signs bits) x.cell }
{
    let Cell { a, b, c } = x.cell;
    Cell {
        a: signed(bits % 2, a),
        b: signed(bits / 2 % 2, b),
        c: signed(bits / 4 % 2, c),
    }
}

impl Lattice for Cubic {
    const NAME: &'static str = "cubic";

    const DIRECTIONS: u8 = 6;

    const MOTIONS: u8 = 48;

    ghost letters = { λ _. cubic_name };

    ghost directions = { λ _. cubic_directions };

    ghost motions = { λ _. cubic_motions };

    ghost onesided = { λ _. cubic_one_sided };

    ghost rules = { λ _. cubic_rules };

    fn title(&self) -> &'static str {
        Self::NAME
    }

    fn direction_count(&self) -> u8 {
        Self::DIRECTIONS
    }

    fn motion_count(&self) -> u8 {
        Self::MOTIONS
    }

    fn direction(&self, number: u8) -> Cell {
        direction(&STEPS, number)
    }

    fn image(&self, motion: u8, cell: Cell) -> Cell {
        match NearCell::new(cell) {
            Some(x) if motion < Self::MOTIONS => negated(motion % 8, ordered(motion / 8, x)),
            _ => Cell::ORIGIN,
        }
    }

    fn after(&self, g: u8, h: u8) -> u8 {
        if g >= Self::MOTIONS || h >= Self::MOTIONS {
            return 0;
        }
        AFTER[g as usize][h as usize]
    }

    // Even orders of the coordinates go with an even number of signs, odd ones with an odd number.
    fn is_one_sided(&self, motion: u8) -> bool {
        let has_odd_order = motion / 8 >= 3;
        let has_odd_signs = (motion % 8).count_ones() % 2 == 1;
        motion < Self::MOTIONS && has_odd_order == has_odd_signs
    }
}
