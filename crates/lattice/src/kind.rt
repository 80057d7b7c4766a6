// The kinds of listing.
#[derive(Clone, Copy, PartialEq, Eq, Debug)]
pub enum Kind {
    Fixed,
    OneSided,
    Free,
}
