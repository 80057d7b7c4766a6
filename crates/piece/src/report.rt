// Writing what a piece is.
use anyhow::anyhow;
use lattice::kind::Kind;
use lattice::kinds::motions_of_kind;
use lattice::lattice::Lattice;
use lattice::motion_set::MotionSet;
use shapes::flooding::is_connected;
use shapes::representative::least_member;
use shapes::shape::Shape;
use shapes::shown::Spaced;
use shapes::symmetry::{orbit, orbit_size, stabiliser};
use std::io;
use std::io::{BufWriter, Write};
use walk::walking::pick_list;

pub(super) fn print_piece<L: Lattice>(
    rt: &HostRuntime,
    lattice: &L,
    kind: Kind,
    shape: &Shape,
) -> anyhow::Result<()> {
    let set = motions_of_kind(lattice, u8::from(kind)).map_err(|_| anyhow!(
        "the kind has no motions"
    ))?;
    let mut out = BufWriter::new(rt.alloc(), rt.stdout())?;
    writeln!(out, "piece {shape} on {}, {}", lattice.title(), kind)?;
    write_walk(&mut out, lattice, shape)?;
    write_class(&mut out, lattice, &set, shape)?;
    write_orientations(&mut out, lattice, &set, shape)?;
    out.flush()?;
    Ok(())
}

// Size, connectedness and pick list.
fn write_walk<L: Lattice, O: Write>(out: &mut O, lattice: &L, shape: &Shape) -> io::Result<()> {
    let connected = if is_connected(lattice, shape) {
        "yes"
    } else {
        "no"
    };
    writeln!(out, "size {}\nconnected: {connected}", shape.size())?;
    match pick_list(lattice, shape) {
        Some(list) => writeln!(out, "pick list: {}", Spaced(list.picks())),
        None => writeln!(out, "pick list: none, since the piece is not connected"),
    }
}

// Least member, stabiliser and orbit size.
fn write_class<L: Lattice, O: Write>(
    out: &mut O,
    lattice: &L,
    set: &MotionSet,
    shape: &Shape,
) -> io::Result<()> {
    match least_member(lattice, set, shape) {
        Some(least) => writeln!(out, "least member: {least}")?,
        None => writeln!(out, "least member: none, since the piece is not connected")?,
    }
    writeln!(
        out,
        "stabiliser: {}",
        Spaced(stabiliser(lattice, set, shape).as_slice())
    )?;
    writeln!(out, "orbit size: {}", orbit_size(lattice, set, shape))
}

fn write_orientations<L: Lattice, O: Write>(
    out: &mut O,
    lattice: &L,
    set: &MotionSet,
    shape: &Shape,
) -> io::Result<()> {
    for orientation in orbit(lattice, set, shape).as_slice() {
        writeln!(
            out,
            "orientation by motion {}: {}",
            orientation.motion,
            Spaced(orientation.placement.cells())
        )?;
    }
    Ok(())
}
