// A search through all pick lists of a size.
ghost use Rattle.walk.specs.Ends.{Ends};
ghost use Rattle.walk.specs.Trails.{ways, rest, whole_list, Sound};

use crate::trail::Trail;

// What is still to list is always an end of the whole list.
#[derive(Drop)]
pub struct Search {
    pub(crate) trail: Trail,
    ghost sound: { ∥ Sound (ways trail) trail ∥₁ },
    ghost end: { Ends (whole_list (ways trail) trail) (rest (ways trail) trail) },
}
