// Sets of motion numbers.
ghost use Rattle.std.specs.Prelude.{◌≡◌, [], ◌∷◌, length, if◌then◌else◌, Decides, nat_lt};
ghost use Rattle.ordered.specs.Members.{In};
ghost use Rattle.ordered.specs.Lookups.{inserted};
ghost use Rattle.lattice.specs.Kinds.{set_motions};

use crate::motion_set::MotionSet;
use ordered::array_list::ArrayList;
use ordered::find::find;

impl MotionSet {
    // Motion 0 alone.
    pub fn identity() -> MotionSet
        ensures { set_motions result ≡ 0 ∷ [] }
    {
        let mut motions = ArrayList::new();
        motions.push(0).unwrap();
        MotionSet { motions }
    }

    pub fn len(&self) -> usize
        ensures { result ≡ length (set_motions self.now) }
    {
        self.as_slice().len()
    }

    pub fn as_slice(&self) -> &[u8]
        ensures { result.now ≡ set_motions self.now }
    {
        self.motions.as_slice()
    }

    pub fn contains(&self, motion: u8) -> bool
        ensures { Decides result (In motion (set_motions self.now)) }
    {
        find(self.as_slice(), &motion).is_ok()
    }

    // One motion more, if its number is at most 47; tells whether the set has it now: a yes or no, with no value beside it.
    pub fn insert(&mut self, motion: u8) -> bool
        ensures value { result ≡ nat_lt motion 48 }
        ensures after { set_motions self.new ≡ (if nat_lt motion 48 then inserted nat_lt motion (set_motions self.old) else set_motions self.old) }
    {
        if motion >= 48 {
            return false;
        }
        // It may be there, and there is always room.
        let _ = self.motions.insert(motion);
        true
    }
}
