// A run of calls of a lister, and of nexts of a pile of sieves.
ghost use Rattle.std.specs.Prelude.{◌≡◌, IfOk};
ghost use Rattle.shapes.specs.Shapes.{shape_cells};

use anyhow::anyhow;
use lattice::cell::Cell;
use lattice::kind::Kind;
use lattice::lattice::Lattice;
use lattices::square::Square;
use listing::calls::{Answer, Call};
use listing::lister::Lister;
use listing::listings::Listing;
use listing::runs::transcribe;
use shapes::entry::Entry;
use shapes::shape::Shape;
use shapes::shown::Spaced;
use sources::bounding_box::BoundingBox;
use sources::sieve::{Over, Sieve};
use sources::source::Source;
use sources::symmetry::Symmetry;
use std::alloc::Global;
use std::io;
use std::io::Write;

// The size of the pieces that the calls are about.
const CALLS_SIZE: usize = 3;

// The size of the pieces that the pile is about.
const PILE_SIZE: usize = 4;

const KIND: Kind = Kind::Free;

const NEXTS: usize = 6;

const FRAME: BoundingBox = BoundingBox { w: 3, h: 3, d: 1 };

// The identity and the half turn. The straight piece has both and does not fit into the frame; of those that fit, one has no half turn.
const MOTIONS: [u8; 2] = [0, 2];

const CORNER: [Cell; 3] = [
    Cell { a: 0, b: 0, c: 0 },
    Cell { a: 0, b: 1, c: 0 },
    Cell { a: 1, b: 1, c: 0 },
];

const ROW: [Cell; 3] = [
    Cell { a: 0, b: 0, c: 0 },
    Cell { a: 1, b: 0, c: 0 },
    Cell { a: 2, b: 0, c: 0 },
];

const DIAGONAL: [Cell; 3] = [
    Cell { a: 0, b: 0, c: 0 },
    Cell { a: 1, b: 1, c: 0 },
    Cell { a: 2, b: 2, c: 0 },
];

// Upon a lister, what fits into the frame; upon that, what the motions leave as it is.
type Pile<'a> = Sieve<Sieve<Lister<Square>, BoundingBox>, Symmetry<'a>>;

pub(super) fn show_run<O: Write>(heap: Global, out: &mut O) -> anyhow::Result<()> {
    let calls = make_calls()?;
    let (lister, first) = open_and_next()?;
    let mut pile = Sieve::over(Sieve::over(lister, FRAME), Symmetry::new(&MOTIONS));
    let mut answers = Vec::new(heap);
    let mut replies = Vec::new(heap);
    transcribe::<Square, Lister<Square>, Pile>(
        Square,
        CALLS_SIZE,
        u8::from(KIND),
        &calls,
        &mut answers,
        &mut pile,
        NEXTS,
        &mut replies,
    )?;
    write_calls(out, &calls, answers.as_slice())?;
    write_nexts(out, first, replies.as_slice())?;
    Ok(())
}

// The shape with exactly these cells.
fn make_shape(cells: &[Cell]) -> anyhow::Result<Shape>
    ensures { IfOk result (λ s. shape_cells s ≡ cells.now) }
{
    Shape::new(cells).map_err(|_| anyhow!("the cells are no shape"))
}

fn make_calls() -> anyhow::Result<[Call; 7]> {
    let corner = make_shape(&CORNER)?;
    let row = make_shape(&ROW)?;
    let diagonal = make_shape(&DIAGONAL)?;
    Ok([
        Call::Next,
        Call::Ask(corner),
        Call::Ask(row),
        Call::Next,
        Call::Next,
        Call::Ask(row),
        Call::Ask(diagonal),
    ])
}

// A lister that has handed out one entry, and the entry.
fn open_and_next() -> anyhow::Result<(Lister<Square>, Entry)> {
    let mut lister = Lister::open(Square, PILE_SIZE, u8::from(KIND)).map_err(|_| anyhow!(
        "the lister was not opened"
    ))?;
    let mut first = Entry::blank();
    lister
        .next(&mut first)
        .map_err(|_| anyhow!("the lister has no entry"))?;
    Ok((lister, first))
}

fn write_calls<O: Write>(out: &mut O, calls: &[Call], answers: &[Answer]) -> io::Result<()> {
    writeln!(
        out,
        "\nCalls of a lister just opened on {}, size {CALLS_SIZE}, {}",
        Square.title(),
        KIND
    )?;
    for (call, answer) in calls.iter().zip(answers) {
        writeln!(out, "{call}: {answer}")?;
    }
    Ok(())
}

fn write_nexts<O: Write>(out: &mut O, first: Entry, replies: &[Answer]) -> io::Result<()> {
    let BoundingBox { w, h, d } = FRAME;
    writeln!(
        out,
        "\nNexts of a pile of two sieves upon a lister of {}, size {PILE_SIZE}, {}, that had handed out one entry",
        Square.title(),
        KIND
    )?;
    writeln!(
        out,
        "lower sieve: fits into {w} by {h} by {d}; upper sieve: stabiliser has {}",
        Spaced(&MOTIONS)
    )?;
    let before = Answer::Handed(first);
    writeln!(out, "handed out before: {before}")?;
    for reply in replies {
        writeln!(out, "next: {reply}")?;
    }
    Ok(())
}
