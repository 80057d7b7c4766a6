// The hex lattice.
ghost use Rattle.std.specs.Prelude.{refl};
ghost use Rattle.std.proofs.Common.{lit≤};
ghost use Rattle.lattices.specs.Hex.{hex_name, hex_directions, hex_turn, hex_motions, hex_one_sided};
ghost use Rattle.lattices.specs.Lawful.{hex_rules, hex_motions_are, hex_after};

use crate::directions::direction;
use crate::near_cell::NearCell;
use crate::plane::{self, Turning};
use lattice::cell::Cell;
use lattice::lattice::Lattice;

#[derive(Clone, Copy, PartialEq, Eq, Debug)]
pub struct Hex;

const STEPS: [Cell; 6] = [
    Cell { a: 1, b: 0, c: 0 },
    Cell { a: 0, b: 1, c: 0 },
    Cell { a: -1, b: 1, c: 0 },
    Cell { a: -1, b: 0, c: 0 },
    Cell { a: 0, b: -1, c: 0 },
    Cell { a: 1, b: -1, c: 0 },
];

impl Turning for Hex {
    const CIRCLE: u8 = 6;

    ghost CIRCLE = { 6 };

    ghost turn = { hex_turn };

    ghost motions = { hex_motions };

    ghost some = { lit≤ tt };

    ghost few = { lit≤ tt };

    ghost motions_are = { hex_motions_are };

    ghost after_is = { hex_after };

    fn turned(times: u8, x: NearCell) -> Cell {
        let Cell { a, b, c } = x.cell;
        match times {
            0 => x.cell,
            1 => Cell { a: -b, b: a + b, c },
            2 => Cell { a: -a - b, b: a, c },
            3 => Cell { a: -a, b: -b, c },
            4 => Cell { a: b, b: -a - b, c },
            _ => Cell { a: a + b, b: -a, c },
        }
    }
}

impl Lattice for Hex {
    const NAME: &'static str = "hex";

    const DIRECTIONS: u8 = 6;

    const MOTIONS: u8 = 12;

    ghost letters = { λ _. hex_name };

    ghost directions = { λ _. hex_directions };

    ghost motions = { λ _. hex_motions };

    ghost onesided = { λ _. hex_one_sided };

    ghost rules = { λ _. hex_rules };

    fn title(&self) -> &'static str {
        Self::NAME
    }

    fn direction_count(&self) -> u8 {
        Self::DIRECTIONS
    }

    fn motion_count(&self) -> u8 {
        Self::MOTIONS
    }

    fn direction(&self, number: u8) -> Cell {
        direction(&STEPS, number)
    }

    fn image(&self, motion: u8, cell: Cell) -> Cell {
        plane::image::<Self>(motion, cell)
    }

    fn after(&self, g: u8, h: u8) -> u8 {
        plane::after::<Self>(g, h)
    }

    fn is_one_sided(&self, motion: u8) -> bool {
        plane::is_turn::<Self>(motion)
    }
}
