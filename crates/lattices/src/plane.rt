// What the lattices of the plane share: their motions are turns, alone or after a swap of a and b.
ghost use Rattle.std.specs.Prelude.{◌≡◌, ℕ, ◌<◌, ◌≤◌, List, nat_lt};
ghost use Rattle.lattice.specs.Matrices.{Matrix, image as carried};
ghost use Rattle.lattice.specs.Lattices.{image_under, in_one_sided, number_after as numbered_after};
ghost use Rattle.lattices.specs.Plane.{swap, turns, plane_motions, plane_after};

use crate::near_cell::NearCell;
use lattice::cell::Cell;

// A lattice of the plane, by its turn.
pub(crate) trait Turning {
    // The number of turns in a full circle.
    const CIRCLE: u8;

    ghost CIRCLE: { ℕ };

    ghost turn: { Matrix };

    ghost motions: { List Matrix };

    fn turned(times: u8, x: NearCell) -> Cell
        requires { times < CIRCLE }
        ensures { result ≡ carried (turns turn times) x.cell };

    ghost some: { 0 < CIRCLE };

    ghost few: { CIRCLE ≤ 6 };

    ghost motions_are: { motions ≡ plane_motions turn CIRCLE };

    ghost after_is: { (g h : ℕ) → numbered_after motions g h ≡ plane_after CIRCLE g h };
}

// With a and b swapped.
fn swapped(x: NearCell) -> NearCell
    ensures { result.cell ≡ carried swap x.cell }
{
    let Cell { a, b, c } = x.cell;
    NearCell {
        cell: Cell { a: b, b: a, c },
    }
}

pub(crate) fn image<T: Turning>(motion: u8, cell: Cell) -> Cell
    ensures { result ≡ image_under T.motions motion cell }
{
    let circle = T::CIRCLE;
    match NearCell::new(cell) {
        Some(x) if motion < circle => T::turned(motion, x),
        Some(x) if motion < 2 * circle => T::turned(motion - circle, swapped(x)),
        _ => Cell::ORIGIN,
    }
}

// The number of "g after h".
pub(crate) fn after<T: Turning>(g: u8, h: u8) -> u8
    ensures { result ≡ numbered_after T.motions g h }
{
    let circle = T::CIRCLE;
    if g >= 2 * circle || h >= 2 * circle {
        return 0;
    }
    let turns = if g < circle {
        g % circle + h % circle
    } else {
        g % circle + (circle - h % circle)
    };
    let swap = if g / circle == h / circle { 0 } else { circle };
    turns % circle + swap
}

// The turns are the one-sided motions.
pub(crate) fn is_turn<T: Turning>(motion: u8) -> bool
    ensures { result ≡ in_one_sided T.motions (λ g. nat_lt g T.CIRCLE) motion }
{
    motion < T::CIRCLE
}
