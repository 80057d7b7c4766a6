// Why a call is refused.
ghost use Rattle.std.specs.Prelude.{◌≡◌};
ghost use Rattle.lattice.specs.Refusals.{refusal_number};

// docs/RULES.md says exactly when each is given. A refusal changes nothing.
#[derive(Clone, Copy, PartialEq, Eq, Debug)]
pub enum Refusal {
    // the size or count of cells is 0 or over 16
    Size,
    // the kind is none of the three
    Kind,
    // the name is not that of the lattice that is checked, or no known one
    Name,
    // a coordinate is outside −15 to 15
    Reach,
    // the first cell is not (0,0,0), or a cell is not greater than the one before
    Order,
    // next with nothing ahead
    Through,
    // the line is longer than the buffer
    Buffer,
    // the press already has 999,999,999 records
    Records,
    // the line due there is not there in its form
    Form,
    // a content rule of the check is broken
    Content,
}

impl From<Refusal> for u8 {
    ghost from_gives = { λ e n. n ≡ refusal_number e };

    fn from(refusal: Refusal) -> u8 {
        match refusal {
            Refusal::Size => 1,
            Refusal::Kind => 2,
            Refusal::Name => 3,
            Refusal::Reach => 4,
            Refusal::Order => 5,
            Refusal::Through => 6,
            Refusal::Buffer => 7,
            Refusal::Records => 8,
            Refusal::Form => 9,
            Refusal::Content => 10,
        }
    }
}
