// Whether a shape is connected: its cells are flooded from the origin, and counted.
ghost use Rattle.std.specs.Prelude.{◌≡◌, ◌||◌, Decides};
ghost use Rattle.std.specs.List.{AllByRecursion};
ghost use Rattle.lattice.specs.Cells.{origin, Within};
ghost use Rattle.shapes.specs.Connected.{Connected};
ghost use Rattle.shapes.specs.Floods.{some_pass, touches as touching, spread as spreading, flood as flooding, same_cell, connected};
ghost use Rattle.shapes.specs.Members.{placement_cells};
ghost use Rattle.shapes.specs.Positions.{neighbours};
ghost use Rattle.shapes.specs.Shapes.{shape_cells};

use crate::images::difference;
use crate::placement::Placement;
use crate::shape::Shape;
use lattice::cell::Cell;
use lattice::lattice::Lattice;
use ordered::array_list::ArrayList;

// y is x, or next to it.
fn is_at<L: Lattice>(lattice: &L, x: Cell, y: Cell) -> bool
    requires x_near { Within 15 x }
    requires y_near { Within 15 y }
    ensures { result ≡ (same_cell x y || some_pass (same_cell y) (neighbours (L.directions lattice.now) x)) }
{
    if y == x {
        return true;
    }
    let step = difference(y, x);
    for k in 0..lattice.direction_count() {
        if lattice.direction(k) == step {
            return true;
        }
    }
    false
}

// y is one of the cells reached, or next to one.
fn touches<L: Lattice>(lattice: &L, reached: &Placement, y: Cell) -> bool
    requires near { AllByRecursion (Within 15) (placement_cells reached.now) }
    requires y_near { Within 15 y }
    ensures { result ≡ touching same_cell (neighbours (L.directions lattice.now)) (placement_cells reached.now) y }
{
    for x in reached.cells() {
        if is_at(lattice, *x, y) {
            return true;
        }
    }
    false
}

// The cells of the shape that are reached, or next to one that is. What is reached is known at sight, since both lists ascend.
fn spread<L: Lattice>(lattice: &L, shape: &Shape, reached: &Placement) -> Placement
    requires near { AllByRecursion (Within 15) (placement_cells reached.now) }
    ensures { placement_cells result ≡ spreading same_cell (neighbours (L.directions lattice.now)) (shape_cells shape.now) (placement_cells reached.now) }
{
    let known = reached.cells();
    let mut passed = 0;
    let mut cells = ArrayList::new();
    for y in shape.cells() {
        let is_known = known.get(passed) == Some(y);
        if is_known {
            passed += 1;
        }
        if is_known || touches(lattice, reached, *y) {
            cells.push(*y).unwrap();
        }
    }
    Placement { cells }
}

// The cells that are reached from the origin, the first cell, in rounds until one adds nothing or nothing is left to add.
fn flood<L: Lattice>(lattice: &L, shape: &Shape) -> Placement
    ensures { placement_cells result ≡ flooding same_cell (neighbours (L.directions lattice.now)) origin (shape_cells shape.now) }
{
    let mut cells = ArrayList::new();
    cells.push(Cell::ORIGIN).unwrap();
    let mut reached = Placement { cells };
    for _k in 0..shape.size() {
        let next = spread(lattice, shape, &reached);
        let count = next.cells().len();
        if count == reached.cells().len() || count == shape.size() {
            return next;
        }
        reached = next;
    }
    reached
}

// Every cell is reached from the origin by steps in the lattice's directions, all the way within the shape.
pub fn is_connected<L: Lattice>(lattice: &L, shape: &Shape) -> bool
    ensures value { result ≡ connected (L.directions lattice.now) (shape_cells shape.now) }
    ensures exact { Decides result (Connected (neighbours (L.directions lattice.now)) origin (shape_cells shape.now)) }
{
    let reached = flood(lattice, shape);
    reached.cells().len() == shape.size()
}
