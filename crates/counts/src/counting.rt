// How many entries a source has ahead.
ghost use Rattle.std.specs.Prelude.{◌≡◌, ◌^◌, ◌<◌, true, false, [], length, is_some, MatchResult};
ghost use Rattle.std.specs.Option.{SomeIff};
ghost use Rattle.lattice.specs.Kinds.{kind_number};
ghost use Rattle.listing.specs.Made.{listing};
ghost use Rattle.listing.specs.Openings.{opening_for};
ghost use Rattle.sources.specs.Sources.{ahead};

use lattice::kind::Kind;
use lattice::lattice::Lattice;
use listing::lister::Lister;
use listing::listings::Listing;
use shapes::entry::Entry;
use sources::source::Source;

// Runs a source to its end. None if a u64 cannot hold the count.
// A source puts each entry into the caller's and so is no iterator: its count is a loop.
fn count<S: Source>(source: &mut S) -> Option<u64>
    ensures value { SomeIff result (length (ahead (S.stands source.old)) < 2 ^ 64) (length (ahead (S.stands source.old))) }
    ensures through { is_some result ≡ true → ahead (S.stands source.new) ≡ [] }
{
    let mut entry = Entry::blank();
    let mut counted = 0u64;
    while let Ok(()) = source.next(&mut entry) {
        counted = counted.checked_add(1)?;
    }
    Some(counted)
}

// How many classes of a size a lister hands out. None if it is not opened or a u64 cannot hold the count.
pub(super) fn count_listed<L: Lattice + Drop>(lattice: L, size: usize, kind: Kind) -> Option<u64>
    ensures { MatchResult (opening_for (L.directions lattice) (L.motions lattice) (L.onesided lattice) size (kind_number kind)) (λ o. SomeIff result (length (listing o) < 2 ^ 64) (length (listing o))) (λ _. is_some result ≡ false) }
{
    let mut lister = Lister::open(lattice, size, u8::from(kind)).ok()?;
    count(&mut lister)
}
