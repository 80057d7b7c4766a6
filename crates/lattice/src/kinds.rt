// Which motions a kind uses.
ghost use Rattle.std.specs.Prelude.{◌≡◌, ◌<◌, length, Ok, Some};
ghost use Rattle.lattice.specs.declared.motion_set.MotionSet.{MotionSet};
ghost use Rattle.lattice.specs.Kinds.{kind_number, numbered_kind, kind_name, named_kind, uses as uses_motion, numbered_motions, Closed, set_motions};
ghost use Rattle.lattice.specs.Refusals.{answer};

use crate::kind::Kind;
use crate::lattice::Lattice;
use crate::motion_set::MotionSet;
use crate::refusal::Refusal;
use std::fmt;
use std::fmt::Display;

impl From<Kind> for u8 {
    ghost from_gives = { λ k n. n ≡ kind_number k };

    fn from(kind: Kind) -> u8 {
        match kind {
            Kind::Fixed => 0,
            Kind::OneSided => 1,
            Kind::Free => 2,
        }
    }
}

// The kind with this number; refused by 2 if there is none.
impl TryFrom<u8> for Kind {
    type Error = Refusal;

    ghost try_from_gives = { λ n r. answer (λ k. k) r ≡ numbered_kind n };

    fn try_from(number: u8) -> Result<Kind, Refusal> {
        match number {
            0 => Ok(Kind::Fixed),
            1 => Ok(Kind::OneSided),
            2 => Ok(Kind::Free),
            _ => Err(Refusal::Kind),
        }
    }
}

// The kind with this word; refused by 2 if there is none.
impl TryFrom<&[u8]> for Kind {
    type Error = Refusal;

    ghost try_from_gives = { λ word r. answer (λ k. k) r ≡ named_kind word.now };

    fn try_from(word: &[u8]) -> Result<Kind, Refusal> {
        if word == Kind::Fixed.word().as_bytes() {
            Ok(Kind::Fixed)
        } else if word == Kind::OneSided.word().as_bytes() {
            Ok(Kind::OneSided)
        } else if word == Kind::Free.word().as_bytes() {
            Ok(Kind::Free)
        } else {
            Err(Refusal::Kind)
        }
    }
}

impl Display for Kind {
    ghost output = { λ k. Some (kind_name k) };

    fn fmt<W: fmt::Write>(&self, f: &mut fmt::Formatter<W>) -> fmt::Result {
        f.write_str(self.word())
    }
}

impl Kind {
    // The word for the kind.
    pub fn word(self) -> &'static str
        ensures { result.now ≡ kind_name self }
    {
        match self {
            Kind::Fixed => "fixed",
            Kind::OneSided => "one-sided",
            Kind::Free => "free",
        }
    }

    fn uses<L: Lattice>(self, lattice: &L, motion: u8) -> bool
        requires { motion < length (L.motions lattice.now) }
        ensures { result ≡ uses_motion self (L.onesided lattice.now) motion }
    {
        match self {
            Kind::Fixed => motion == 0,
            Kind::OneSided => lattice.is_one_sided(motion),
            Kind::Free => true,
        }
    }
}

// The ascending list of the motions of the kind with this number; refused by 2 if there is none. The kind is a number and no `Kind`,
// since the rules ask that every number can be given, and say which are refused.
// It has 0, and "g after h" whenever it has g and h.
pub fn motions_of_kind<L: Lattice>(lattice: &L, kind: u8) -> Result<MotionSet, Refusal>
    ensures value { answer set_motions result ≡ numbered_motions (L.motions lattice.now) (L.onesided lattice.now) kind }
    ensures closed { (s : MotionSet) → result ≡ Ok s → Closed (L.motions lattice.now) (set_motions s) }
{
    let kind = Kind::try_from(kind)?;
    let mut set = MotionSet::identity();
    for motion in 1..lattice.motion_count() {
        if kind.uses(lattice, motion) {
            set.insert(motion);
        }
    }
    Ok(set)
}
