// Three whole numbers that may become a cell. They are wider than a cell's, as a text's numbers of three digits are.
#[derive(Clone, Copy, PartialEq, Eq, Debug, Default)]
pub struct Coordinates {
    pub a: i16,
    pub b: i16,
    pub c: i16,
}
