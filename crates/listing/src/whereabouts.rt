// Where the class of a shape is, as a lister tells it.
#[derive(Clone, Copy, PartialEq, Eq, Debug)]
pub enum Whereabouts {
    // it has been handed out
    Given,
    // it will be
    ToCome,
    // the shape has another size or is not connected
    Foreign,
}
