// Finding a lattice by its name.
ghost use Rattle.std.specs.Prelude.{◌≡◌, ◌==◌, position};
ghost use Rattle.lattice.specs.Refusals.{answer};
ghost use Rattle.lattices.specs.Names.{named_lattice, name_line};

use crate::cubic::Cubic;
use crate::hex::Hex;
use crate::known::Known;
use crate::square::Square;
use lattice::lattice::Lattice;
use lattice::refusal::Refusal;

// The longest name that a lattice may have.
const LONGEST: usize = 9;

// The lattice with this name; refused by 3 if there is none.
impl TryFrom<&[u8]> for Known {
    type Error = Refusal;

    ghost try_from_gives = { λ name told. answer (λ k. k) told ≡ named_lattice name.now };

    fn try_from(name: &[u8]) -> Result<Known, Refusal> {
        if name == Square::NAME.as_bytes() {
            Ok(Known::Square)
        } else if name == Hex::NAME.as_bytes() {
            Ok(Known::Hex)
        } else if name == Cubic::NAME.as_bytes() {
            Ok(Known::Cubic)
        } else {
            Err(Refusal::Name)
        }
    }
}

// Where the first byte 10 stands.
fn line_end(input: &[u8]) -> Option<usize>
    ensures { result ≡ position (λ b. b == 10) input.now }
{
    input.iter().position(|byte| *byte == b'\n')
}

// The name on the first line of the input; refused by 9 if the line is empty, too long for a name or has no end.
pub fn name_on_line(input: &[u8]) -> Result<&[u8], Refusal>
    ensures { answer (λ s. s.now) result ≡ name_line input.now }
{
    match line_end(input) {
        Some(length @ 1..=LONGEST) => Ok(&input[..length]),
        _ => Err(Refusal::Form),
    }
}
