// Says what a piece is: reads one line from standard input, a lattice's name, a kind and cells.
#![tactic(auto)]

mod complaint;
mod report;
mod request;
#[cfg(test)]
mod tests;

use anyhow::anyhow;
use complaint::Complaint;
use lattices::cubic::Cubic;
use lattices::hex::Hex;
use lattices::known::Known;
use lattices::square::Square;
use report::print_piece;
use request::{Request, read_request};
use std::io::{BufRead, BufReader, Read};

// No line of more bytes is read. `motions` reads its line by the same three calls: to share them would want a crate of their own.
const LONGEST_LINE: u64 = 4096;

fn main(rt: HostRuntime) -> anyhow::Result<()> {
    let mut line = Vec::new(rt.alloc());
    let mut input = BufReader::new(rt.alloc(), rt.stdin().take(LONGEST_LINE))?;
    input.read_until(b'\n', &mut line)?;
    match read_request(line.as_slice()) {
        Ok(request) => answer(&rt, &request),
        Err(complaint) => {
            eprintln!(rt; "{complaint}")?;
            Err(anyhow!("the piece is refused"))
        }
    }
}

// Each arm prints at another type, which only a `match` can choose.
fn answer(rt: &HostRuntime, request: &Request) -> anyhow::Result<()> {
    match request.lattice {
        Known::Square => print_piece(rt, &Square, request.kind, &request.shape),
        Known::Hex => print_piece(rt, &Hex, request.kind, &request.shape),
        Known::Cubic => print_piece(rt, &Cubic, request.kind, &request.shape),
    }
}
