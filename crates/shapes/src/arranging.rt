// Making a shape of cells in any order.
ghost use Rattle.std.specs.Prelude.{◌≡◌};
ghost use Rattle.shapes.specs.Faults.{arranged_or_fault};
ghost use Rattle.shapes.specs.Shapes.{made as made_shape};

use crate::making::MOST_CELLS;
use crate::placement::Placement;
use crate::shape::Shape;
use crate::shape_fault::ShapeFault;
use lattice::cell::Cell;

impl Shape {
    // The shape with exactly these cells, in whatever order they come, or the first fault of the ascending list.
    pub fn arranged(cells: &[Cell]) -> Result<Shape, ShapeFault>
        ensures { made_shape result ≡ arranged_or_fault cells.now }
    {
        if cells.len() > MOST_CELLS {
            return Err(ShapeFault::Count);
        }
        Shape::new(Placement::sorted(cells).cells())
    }
}
