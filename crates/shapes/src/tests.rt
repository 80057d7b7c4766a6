use crate::shape::Shape;
use crate::shape_fault::ShapeFault;
use lattice::cell::Cell;
use lattice::refusal::Refusal;
use std::process::Abort;

fn cell(a: i8, b: i8, c: i8) -> Cell {
    Cell { a, b, c }
}

// The fault of the cells, with its refusal and place, is this one.
fn refused(rt: &impl Abort, cells: &[Cell], fault: ShapeFault, refusal: u8, place: usize) {
    assert_eq!(rt; Shape::new(cells).err(), Some(fault));
    assert_eq!(rt; u8::from(Refusal::from(fault)), refusal);
    assert_eq!(rt; fault.place(), place);
}

#[test]
fn shapes(rt: HostRuntime) {
    let origin = Cell::ORIGIN;
    assert!(rt; Shape::new(&[origin, cell(15, 0, 0)]).is_ok());
    assert!(rt; Shape::new(&[origin]).is_ok());
    refused(&rt, &[origin, cell(16, 0, 0)], ShapeFault::Reach(1), 4, 1);
    refused(&rt, &[origin, origin], ShapeFault::Order(1), 5, 1);
    refused(&rt, &[cell(1, 0, 0)], ShapeFault::Order(0), 5, 0);
    refused(&rt, &[origin, cell(-16, 0, 0)], ShapeFault::Reach(1), 4, 1);
    refused(&rt, &[], ShapeFault::Count, 1, 0);
    refused(&rt, &[origin; 17], ShapeFault::Count, 1, 0);
}
