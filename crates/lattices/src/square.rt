// The square lattice.
ghost use Rattle.std.specs.Prelude.{refl};
ghost use Rattle.std.proofs.Common.{lit≤};
ghost use Rattle.lattices.specs.Square.{square_name, square_directions, square_turn, square_motions, square_one_sided};
ghost use Rattle.lattices.specs.Lawful.{square_rules, square_motions_are, square_after};

use crate::directions::direction;
use crate::near_cell::NearCell;
use crate::plane::{self, Turning};
use lattice::cell::Cell;
use lattice::lattice::Lattice;

#[derive(Clone, Copy, PartialEq, Eq, Debug)]
pub struct Square;

const STEPS: [Cell; 4] = [
    Cell { a: 1, b: 0, c: 0 },
    Cell { a: 0, b: 1, c: 0 },
    Cell { a: -1, b: 0, c: 0 },
    Cell { a: 0, b: -1, c: 0 },
];

impl Turning for Square {
    const CIRCLE: u8 = 4;

    ghost CIRCLE = { 4 };

    ghost turn = { square_turn };

    ghost motions = { square_motions };

    ghost some = { lit≤ tt };

    ghost few = { lit≤ tt };

    ghost motions_are = { square_motions_are };

    ghost after_is = { square_after };

    fn turned(times: u8, x: NearCell) -> Cell {
        let Cell { a, b, c } = x.cell;
        match times {
            0 => x.cell,
            1 => Cell { a: -b, b: a, c },
            2 => Cell { a: -a, b: -b, c },
            _ => Cell { a: b, b: -a, c },
        }
    }
}

impl Lattice for Square {
    const NAME: &'static str = "square";

    const DIRECTIONS: u8 = 4;

    const MOTIONS: u8 = 8;

    ghost letters = { λ _. square_name };

    ghost directions = { λ _. square_directions };

    ghost motions = { λ _. square_motions };

    ghost onesided = { λ _. square_one_sided };

    ghost rules = { λ _. square_rules };

    fn title(&self) -> &'static str {
        Self::NAME
    }

    fn direction_count(&self) -> u8 {
        Self::DIRECTIONS
    }

    fn motion_count(&self) -> u8 {
        Self::MOTIONS
    }

    fn direction(&self, number: u8) -> Cell {
        direction(&STEPS, number)
    }

    fn image(&self, motion: u8, cell: Cell) -> Cell {
        plane::image::<Self>(motion, cell)
    }

    fn after(&self, g: u8, h: u8) -> u8 {
        plane::after::<Self>(g, h)
    }

    fn is_one_sided(&self, motion: u8) -> bool {
        plane::is_turn::<Self>(motion)
    }
}
