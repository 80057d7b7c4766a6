use crate::complaint::{Complaint, Field};
use crate::request::read_request;
use lattice::kinds::motions_of_kind;
use lattice::lattice::Lattice;
use lattices::cubic::Cubic;
use lattices::hex::Hex;
use lattices::known::Known;
use lattices::square::Square;
use shapes::classed::entry_of;
use shapes::shape_fault::ShapeFault;
use std::test::Fail;
use walk::search::Search;
use walk::walking::pick_list;

// The number of motions that leave the piece's least member as it is and its orbit size, under the free kind.
fn symmetry<L: Lattice>(lattice: &L, line: &[u8]) -> Option<(usize, u8)> {
    let request = read_request(line).ok()?;
    let set = motions_of_kind(lattice, 2).ok()?;
    entry_of(lattice, &set, &request.shape).map(|entry| (entry.stabiliser.len(), entry.orbit_size))
}

#[test]
fn dominoes(rt: HostRuntime) {
    assert_eq!(rt; symmetry(&Hex, b"hex\tfree\t0,0,0 1,0,0\n"), Some((4, 3)));
    assert_eq!(rt;
        symmetry(&Cubic, b"cubic\tfree\t0,0,0 1,0,0\n"),
        Some((16, 3))
    );
    assert_eq!(rt;
        symmetry(&Square, b"square\tfree\t0,0,0 1,0,0 1,1,0\n"),
        Some((2, 4))
    );
    assert_eq!(rt;
        symmetry(&Square, b"square\tfree\t0,0,0 -15,1,0 -15,2,0 15,3,0\n"),
        None
    );
}

// How many pick lists of a size a lattice has: as many as fixed pieces.
fn fixed<L: Lattice>(lattice: &L, size: usize) -> usize {
    match Search::begin(lattice, size) {
        Ok(mut search) => (0..1000).take_while(|_| search.advance()).count(),
        Err(_) => 0,
    }
}

#[test]
fn pick_lists(rt: HostRuntime) -> Result<(), Fail> {
    let request = read_request(b"square\tfree\t0,0,0 1,0,0 1,1,0\n").map_err(|_| Fail::new(
        "a piece",
    ))?;
    let list = pick_list(&Square, &request.shape).ok_or_else(|| Fail::new("connected"))?;
    assert!(rt; list.picks() == [0, 1, 4].as_slice());
    assert_eq!(rt; fixed(&Square, 5), 63);
    assert_eq!(rt; fixed(&Hex, 5), 186);
    assert_eq!(rt; fixed(&Cubic, 5), 534);
    assert!(rt; Search::begin(&Square, 0).is_err());
    assert!(rt; Search::begin(&Square, 17).is_err());
    assert!(rt; Search::begin(&Cubic, 16).is_ok());
    Ok(())
}

#[test]
fn refused_lines(rt: HostRuntime) {
    assert!(rt;
        matches!(read_request(b"hex\tfree\t0,0,0\n"), Ok(request) if matches!(request.lattice, Known::Hex))
    );
    assert!(rt; matches!(read_request(b"tri\tfree\t0,0,0\n"), Err(Complaint::Name)));
    assert!(rt; matches!(read_request(b"hex\tloose\t0,0,0\n"), Err(Complaint::Kind)));
    assert!(rt;
        matches!(
            read_request(b"hex\tfree\t0,0,0 16,0,0\n"),
            Err(Complaint::Shape(ShapeFault::Reach(1)))
        )
    );
    assert!(rt;
        matches!(
            read_request(b"hex\tfree\t0,0,0 999,0,0\n"),
            Err(Complaint::Shape(ShapeFault::Reach(1)))
        )
    );
    assert!(rt;
        matches!(
            read_request(b"hex\tfree\t0,0,0 0,0,0\n"),
            Err(Complaint::Shape(ShapeFault::Order(1)))
        )
    );
    assert!(rt;
        matches!(
            read_request(b"hex\tfree\t0,0,0 -0,1,0\n"),
            Err(Complaint::Form(Field::Cell(1)))
        )
    );
    assert!(rt;
        matches!(
            read_request(b"hex\tfree\t00,0,0\n"),
            Err(Complaint::Form(Field::Cell(0)))
        )
    );
    assert!(rt;
        matches!(
            read_request(b"hex\tfree\t0,0,0\t\n"),
            Err(Complaint::Form(Field::Surplus))
        )
    );
    assert!(rt;
        matches!(
            read_request(b"hex\tfree\t0,0,0"),
            Err(Complaint::Form(Field::Line))
        )
    );
}
