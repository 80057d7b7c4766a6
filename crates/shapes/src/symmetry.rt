// The stabiliser of a shape and its different members.
ghost use Rattle.std.specs.Prelude.{◌≡◌, ◌<◌, ◌≤◌, ◌&&◌, [], ◌∷◌, ◌++◌, map, length, if◌then◌else◌, nat_lt};
ghost use Rattle.lattice.specs.Kinds.{set_motions, Closed};
ghost use Rattle.shapes.specs.Classes.{same_cells, moved, stabiliser_of, orbit_size_of};
ghost use Rattle.shapes.specs.Floods.{some_pass};
ghost use Rattle.shapes.specs.Members.{usable, placement_cells, orientations as oriented_members, orbit_list, oriented};
ghost use Rattle.shapes.specs.Shapes.{shape_cells};

use crate::images::member;
use crate::orbit::Orbit;
use crate::orientation::Orientation;
use crate::shape::Shape;
use lattice::cell::Cell;
use lattice::lattice::Lattice;
use lattice::motion_set::MotionSet;
use ordered::array_list::ArrayList;
use ordered::compare::compare;

// Whether a motion of the lattice leaves the shape as it is.
fn keeps<L: Lattice>(lattice: &L, motion: u8, shape: &Shape) -> bool
    ensures { result ≡ (nat_lt motion (length (L.motions lattice.now)) && same_cells (moved (L.motions lattice.now) motion (shape_cells shape.now)) (shape_cells shape.now)) }
{
    motion < lattice.motion_count()
        && compare(member(lattice, motion, shape).cells(), shape.cells()).is_eq()
}

// Lattice and set stay two parameters: one value of both would have to own the lattice, since today's prover does not state that a reference to a lattice is one.
// The motions of a set, of those that the lattice has, that leave the shape as it is.
pub fn stabiliser<L: Lattice>(lattice: &L, set: &MotionSet, shape: &Shape) -> MotionSet
    ensures value { set_motions result ≡ stabiliser_of (L.motions lattice.now) (usable (L.motions lattice.now) (set_motions set.now)) (shape_cells shape.now) }
    ensures closed { Closed (L.motions lattice.now) (set_motions set.now) → set_motions result ≡ stabiliser_of (L.motions lattice.now) (set_motions set.now) (shape_cells shape.now) }
{
    let mut found = MotionSet::identity();
    for motion in set.as_slice() {
        if keeps(lattice, *motion, shape) {
            found.insert(*motion);
        }
    }
    found
}

impl Orbit {
    fn empty() -> Orbit
        ensures { orbit_list result ≡ [] }
    {
        Orbit {
            orientations: ArrayList::new(),
        }
    }

    pub fn as_slice(&self) -> &[Orientation]
        ensures { result.now ≡ orbit_list self.now }
    {
        self.orientations.as_slice()
    }

    pub fn len(&self) -> usize
        ensures value { result ≡ length (orbit_list self.now) }
        ensures few { result ≤ 48 }
    {
        self.orientations.len()
    }

    // Whether one of the orientations has these cells.
    fn has(&self, cells: &[Cell]) -> bool
        ensures { result ≡ some_pass (λ o. same_cells (placement_cells o.placement) cells.now) (orbit_list self.now) }
    {
        for orientation in self.as_slice() {
            if compare(orientation.placement.cells(), cells).is_eq() {
                return true;
            }
        }
        false
    }

    // One orientation more, unless there is one with the same cells.
    fn add(&mut self, orientation: Orientation)
        requires { length (orbit_list self.old) < 48 }
        ensures { orbit_list self.new ≡ (if some_pass (λ o. same_cells (placement_cells o.placement) (placement_cells orientation.placement)) (orbit_list self.old) then orbit_list self.old else orbit_list self.old ++ orientation ∷ []) }
    {
        if !self.has(orientation.placement.cells()) {
            self.orientations.push(orientation).unwrap();
        }
    }
}

// Lattice and set stay two parameters: one value of both would have to own the lattice, since today's prover does not state that a reference to a lattice is one.
// The different members of a shape under the motions of a set that the lattice has, by ascending motion:
// each once, with the lowest motion that makes it.
pub fn orbit<L: Lattice>(lattice: &L, set: &MotionSet, shape: &Shape) -> Orbit
    ensures value { map oriented (orbit_list result) ≡ oriented_members (L.motions lattice.now) (usable (L.motions lattice.now) (set_motions set.now)) (shape_cells shape.now) }
    ensures closed { Closed (L.motions lattice.now) (set_motions set.now) → map oriented (orbit_list result) ≡ oriented_members (L.motions lattice.now) (set_motions set.now) (shape_cells shape.now) }
{
    let mut orbit = Orbit::empty();
    for motion in set.as_slice() {
        if *motion < lattice.motion_count() {
            let placement = member(lattice, *motion, shape);
            orbit.add(Orientation {
                motion: *motion,
                placement,
            });
        }
    }
    orbit
}

// Lattice and set stay two parameters: one value of both would have to own the lattice, since today's prover does not state that a reference to a lattice is one.
// How many different members a shape has under the motions of a set that the lattice has.
pub fn orbit_size<L: Lattice>(lattice: &L, set: &MotionSet, shape: &Shape) -> u8
    ensures value { result ≡ orbit_size_of (L.motions lattice.now) (usable (L.motions lattice.now) (set_motions set.now)) (shape_cells shape.now) }
    ensures some { 1 ≤ result }
    ensures few { result ≤ 48 }
    ensures closed { Closed (L.motions lattice.now) (set_motions set.now) → result ≡ orbit_size_of (L.motions lattice.now) (set_motions set.now) (shape_cells shape.now) }
{
    orbit(lattice, set, shape).len() as u8
}
