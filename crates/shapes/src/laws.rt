// The laws of classes. Each function promises a theorem, and does nothing else.
ghost use Rattle.std.specs.Prelude.{ℕ, List};
ghost use Rattle.lattice.specs.Kinds.{Closed};
ghost use Rattle.shapes.specs.Actions.{Actions};
ghost use Rattle.shapes.specs.Classes.{ClassLaws};

use lattice::lattice::Lattice;

// Wherever a set of motions acts: being a member is an equivalence, there is one least member, and the orbit size
// times the length of the stabiliser is the number of motions.
pub fn action_laws_hold<T>(_at: &T)
    ensures { Actions T }
{}

// The same for the shapes of every lattice and every closed set of its motions; members of a connected shape are
// connected and stay within reach.
pub fn class_laws_hold<L: Lattice>(lattice: &L)
    ensures { (gs : List ℕ) → Closed (L.motions lattice.now) gs → ClassLaws (L.directions lattice.now) (L.motions lattice.now) gs }
{}
