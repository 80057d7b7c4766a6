// What is wrong with cells that are to be a shape.
#[derive(Clone, Copy, PartialEq, Eq, Debug)]
pub enum ShapeFault {
    // no cell, or more than 16
    Count,
    // a coordinate of the cell at this place is outside −15 to 15
    Reach(usize),
    // the cell at this place is not greater than the one before, or is the first and not (0,0,0)
    Order(usize),
}
