// The interface of a lister.
ghost use Rattle.std.specs.Prelude.{◌≡◌, []};
ghost use Rattle.shapes.specs.Shapes.{shape_cells};
ghost use Rattle.listing.specs.Made.{listing};
ghost use Rattle.listing.specs.Openings.{Opening, opening_for, Opened};
ghost use Rattle.sources.specs.Sources.{standing};
ghost use Rattle.listing.specs.Whereabouts.{whereabouts_of};

use crate::whereabouts::Whereabouts;
use lattice::lattice::Lattice;
use lattice::refusal::Refusal;
use shapes::shape::Shape;
use sources::source::Source;

// A lister: a source that is opened by lattice, size and kind, and tells where the class of a shape is.
pub trait Listing<L: Lattice>: Source + Sized {
    // It was opened by this opening, and only nexts have changed it since.
    ghost opened: { Self → Opening → Type 0 };

    // Nothing is behind, and the entries of all classes of connected shapes of the size are ahead, by ascending pick list.
    // Refused by 1 if the size is 0 or over 16, then by 2 if there is no such kind. The project asks for the three apart, size and kind as numbers.
    fn open(lattice: L, size: usize, kind: u8) -> Result<Self, Refusal>
        ensures { Opened (opening_for (L.Lattice.directions lattice) (L.Lattice.motions lattice) (L.Lattice.onesided lattice) size kind) result (λ s o. opened s o × (Self.Source.stands s ≡ standing [] (listing o))) };

    fn whereabouts(&self, shape: &Shape) -> Whereabouts
        ensures { (o : Opening) → opened self.now o → result ≡ whereabouts_of o (Self.Source.stands self.now).behind (shape_cells shape.now) };

    ghost steady: { (s t : Self) → Self.Source.kept s t → (o : Opening) → opened s o → opened t o };
}
