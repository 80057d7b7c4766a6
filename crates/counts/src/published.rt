// The lister against published counts.
ghost use Rattle.std.specs.Prelude.{◌≡◌, count_by};
ghost use Rattle.counts.specs.Comparisons.{agreed, published_for};

use crate::counting::count_listed;
use anyhow::Context;
use lattice::kind::Kind;
use lattice::lattice::Lattice;
use lattices::cubic::Cubic;
use lattices::hex::Hex;
use lattices::square::Square;
use std::alloc::Global;
use std::fmt;

// The size of the pieces that are counted.
pub(super) const SIZE: usize = 5;

// How many pieces of the size there are of each kind, as published.
#[derive(Clone, Copy)]
struct Published {
    fixed: u64,
    one_sided: u64,
    free: u64,
}

const SQUARE: Published = Published {
    fixed: 63,
    one_sided: 18,
    free: 12,
};

const HEX: Published = Published {
    fixed: 186,
    one_sided: 33,
    free: 22,
};

const CUBIC: Published = Published {
    fixed: 534,
    one_sided: 29,
    free: 23,
};

impl Published {
    fn of(self, kind: Kind) -> u64
        ensures { result ≡ published_for self kind }
    {
        match kind {
            Kind::Fixed => self.fixed,
            Kind::OneSided => self.one_sided,
            Kind::Free => self.free,
        }
    }
}

// What was listed, and what is published.
#[derive(Clone, Copy)]
pub struct Comparison {
    lattice: &'static str,
    kind: Kind,
    listed: u64,
    published: u64,
}

impl Comparison {
    pub(super) fn agrees(&self) -> bool
        ensures { result ≡ agreed self.now }
    {
        self.listed == self.published
    }
}

impl fmt::Display for Comparison {
    fn fmt<W: fmt::Write>(&self, f: &mut fmt::Formatter<W>) -> fmt::Result {
        let Comparison {
            lattice,
            kind,
            listed,
            published,
        } = *self;
        let verdict = if self.agrees() { "agree" } else { "DIFFER" };
        write!(
            f,
            "{lattice}, size {SIZE}, {}: {listed} listed, {published} published, {verdict}",
            kind
        )
    }
}

pub(super) fn compare_all(heap: Global) -> anyhow::Result<Vec<Comparison>> {
    let mut comparisons = Vec::new(heap);
    compare(Square, SQUARE, &mut comparisons)?;
    compare(Hex, HEX, &mut comparisons)?;
    compare(Cubic, CUBIC, &mut comparisons)?;
    Ok(comparisons)
}

// Compares each kind on one lattice.
fn compare<L: Lattice + Copy>(
    lattice: L,
    published: Published,
    comparisons: &mut Vec<Comparison>,
) -> anyhow::Result<()> {
    for kind in [Kind::Fixed, Kind::OneSided, Kind::Free] {
        let listed = count_listed(lattice, SIZE, kind).context(
            "the lister was not opened, or a u64 cannot hold the count",
        )?;
        comparisons.push(Comparison {
            lattice: lattice.title(),
            kind,
            listed,
            published: published.of(kind),
        })?;
    }
    Ok(())
}

pub(super) fn count_agreeing(comparisons: &[Comparison]) -> usize
    ensures { result ≡ count_by agreed comparisons.now }
{
    comparisons
        .iter()
        .filter(|comparison| comparison.agrees())
        .count()
}
