// Prints the motions of a lattice, whose name it reads as one line from standard input.
#![tactic(auto)]

mod formula;
#[cfg(test)]
mod tests;

use formula::Formula;
use lattice::cell::Cell;
use lattice::inverse::inverse;
use lattice::lattice::Lattice;
use lattice::matrix::matrix;
use lattice::refusal::Refusal;
use lattices::cubic::Cubic;
use lattices::hex::Hex;
use lattices::known::Known;
use lattices::names::name_on_line;
use lattices::square::Square;
use std::error::Error;
use std::fmt;
use std::io::{BufRead, BufReader, BufWriter, Read, Write};

// A name has at most 9 bytes, and then the line's end: no line of more bytes names a lattice.
// `piece` reads its line by the same three calls: to share them would want a crate of their own, and be no plainer.
const LONGEST_LINE: u64 = 10;

fn main(rt: HostRuntime) -> anyhow::Result<()> {
    let mut line = Vec::new(rt.alloc());
    let mut input = BufReader::new(rt.alloc(), rt.stdin().take(LONGEST_LINE))?;
    input.read_until(b'\n', &mut line)?;
    // Each arm prints at another type, which only a `match` can choose.
    match lattice_on_line(line.as_slice()).map_err(Unnamed)? {
        Known::Square => print_lattice(&rt, &Square),
        Known::Hex => print_lattice(&rt, &Hex),
        Known::Cubic => print_lattice(&rt, &Cubic),
    }
}

fn lattice_on_line(line: &[u8]) -> Result<Known, Refusal> {
    Known::try_from(name_on_line(line)?)
}

// Why a line names no lattice.
#[derive(Clone, Copy, Debug)]
struct Unnamed(Refusal);

impl Error for Unnamed {}

impl fmt::Display for Unnamed {
    fn fmt<W: fmt::Write>(&self, f: &mut fmt::Formatter<W>) -> fmt::Result {
        match self.0 {
            Refusal::Name => write!(
                f,
                "refused (3): no lattice has this name; the known names are square, hex and cubic"
            ),
            _ => write!(
                f,
                "refused (9): the input must be one line, a lattice's name of 1 to 9 bytes and the line's end"
            ),
        }
    }
}

fn print_lattice<L: Lattice>(rt: &HostRuntime, lattice: &L) -> anyhow::Result<()> {
    let mut out = BufWriter::new(rt.alloc(), rt.stdout())?;
    writeln!(out, "lattice {}", lattice.title())?;
    for number in 0..lattice.direction_count() {
        let Cell { a, b, c } = lattice.direction(number);
        writeln!(out, "direction {number}: ({a}, {b}, {c})")?;
    }
    for number in 0..lattice.motion_count() {
        let formula = Formula(matrix(lattice, number));
        let back = inverse(lattice, number);
        let side = if lattice.is_one_sided(number) {
            ", one-sided"
        } else {
            ""
        };
        writeln!(
            out,
            "motion {number}: (a, b, c) to {formula}, inverse {back}{side}"
        )?;
    }
    let one_sided = (0..lattice.motion_count())
        .filter(|number| lattice.is_one_sided(*number))
        .count();
    writeln!(
        out,
        "{} directions and {} motions printed, {one_sided} of them one-sided",
        lattice.direction_count(),
        lattice.motion_count()
    )?;
    out.flush()?;
    Ok(())
}
