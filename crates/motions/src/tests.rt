use crate::lattice_on_line;
use lattice::cell::Cell;
use lattice::kinds::motions_of_kind;
use lattice::lattice::Lattice;
use lattice::refusal::Refusal;
use lattices::cubic::Cubic;
use lattices::hex::Hex;
use lattices::known::Known;
use lattices::square::Square;
use std::process::Abort;
use std::test::Fail;

// The images of (1,2,3) under each motion in turn, and (0,0,0) beyond the last and out of reach.
fn check_images<L: Lattice>(rt: &impl Abort, lattice: &L, images: &[(i8, i8)]) {
    let x = Cell { a: 1, b: 2, c: 3 };
    let count = lattice.motion_count();
    assert_eq!(rt; usize::from(count), images.len());
    for (motion, (a, b)) in (0..count).zip(images) {
        assert_eq!(rt; lattice.image(motion, x), Cell { a: *a, b: *b, c: 3 });
    }
    assert_eq!(rt; lattice.image(count, x), Cell::ORIGIN);
    assert_eq!(rt; lattice.image(0, Cell { a: 16, b: 0, c: 0 }), Cell::ORIGIN);
    assert_eq!(rt;
        lattice.image(
            0,
            Cell {
                a: -15,
                b: 15,
                c: 15,
            },
        ),
        Cell {
            a: -15,
            b: 15,
            c: 15,
        }
    );
}

#[test]
fn plane_motions(rt: HostRuntime) {
    check_images(
        &rt,
        &Square,
        &[
            (1, 2),
            (-2, 1),
            (-1, -2),
            (2, -1),
            (2, 1),
            (-1, 2),
            (-2, -1),
            (1, -2),
        ],
    );
    check_images(
        &rt,
        &Hex,
        &[
            (1, 2),
            (-2, 3),
            (-3, 1),
            (-1, -2),
            (2, -3),
            (3, -1),
            (2, 1),
            (-1, 3),
            (-3, 2),
            (-2, -1),
            (1, -3),
            (3, -2),
        ],
    );
}

#[test]
fn products(rt: HostRuntime) {
    assert_eq!(rt; Square.after(4, 1), 7);
    assert_eq!(rt; Cubic.after(8, 1), 12);
    assert_eq!(rt; Square.after(8, 1), 0);
    assert_eq!(rt; Cubic.after(1, 48), 0);
}

#[test]
fn kinds(rt: HostRuntime) -> Result<(), Fail> {
    let one_sided = motions_of_kind(&Cubic, 1).map_err(|_| Fail::new("one-sided is a kind"))?;
    assert_eq!(rt; one_sided.len(), 24);
    assert!(rt; one_sided.contains(25));
    assert!(rt; !one_sided.contains(1));
    let free = motions_of_kind(&Hex, 2).map_err(|_| Fail::new("free is a kind"))?;
    assert_eq!(rt; free.len(), 12);
    let fixed = motions_of_kind(&Square, 0).map_err(|_| Fail::new("fixed is a kind"))?;
    assert_eq!(rt; fixed.len(), 1);
    let refusal = motions_of_kind(&Square, 3).err();
    assert_eq!(rt; refusal.map(u8::from), Some(2));
    Ok(())
}

#[test]
fn refused_lines(rt: HostRuntime) {
    assert!(rt; matches!(lattice_on_line(b"hex\nmore"), Ok(Known::Hex)));
    assert!(rt; matches!(lattice_on_line(b"Hex\n"), Err(Refusal::Name)));
    assert!(rt; matches!(lattice_on_line(b"hex"), Err(Refusal::Form)));
    assert!(rt; matches!(lattice_on_line(b""), Err(Refusal::Form)));
    assert!(rt; matches!(lattice_on_line(b"\n"), Err(Refusal::Form)));
    assert!(rt; matches!(lattice_on_line(b"squaresque\n"), Err(Refusal::Form)));
}
