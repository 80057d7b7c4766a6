// Reading the line.
use crate::complaint::{Complaint, Field};
use lattice::kind::Kind;
use lattices::known::Known;
use ordered::array_list::ArrayList;
use shapes::coordinates::Coordinates;
use shapes::shape::Shape;

#[derive(Clone, Copy)]
pub struct Request {
    pub lattice: Known,
    pub kind: Kind,
    pub shape: Shape,
}

pub(super) fn read_request(line: &[u8]) -> Result<Request, Complaint> {
    let text = std::str::from_utf8(line).map_err(|_| Complaint::Form(Field::Line))?;
    let text = text.strip_suffix('\n').ok_or(Complaint::Form(Field::Line))?;
    let mut fields = text.split('\t');
    let name = full(fields.next(), Field::Name)?;
    let kind = full(fields.next(), Field::Kind)?;
    let cells = read_cells(full(fields.next(), Field::Cells)?)?;
    if fields.next().is_some() {
        return Err(Complaint::Form(Field::Surplus));
    }
    Ok(Request {
        lattice: Known::try_from(name.as_bytes()).map_err(|_| Complaint::Name)?,
        kind: Kind::try_from(kind.as_bytes()).map_err(|_| Complaint::Kind)?,
        shape: Shape::from_coordinates(cells.as_slice())?,
    })
}

fn full(field: Option<&str>, which: Field) -> Result<&str, Complaint> {
    field
        .filter(|text| !text.is_empty())
        .ok_or(Complaint::Form(which))
}

// The first 17 cells, one more than a shape has: from the count of these it is told that there are too many.
fn read_cells(field: &str) -> Result<ArrayList<Coordinates, 17>, Complaint> {
    let mut cells = ArrayList::new();
    for (place, text) in field.split(' ').enumerate() {
        let x = read_cell(text).ok_or(Complaint::Form(Field::Cell(place)))?;
        // The list has no room for a cell behind the first 17, which changes nothing.
        let _ = cells.push(x);
    }
    Ok(cells)
}

fn read_cell(text: &str) -> Option<Coordinates> {
    let mut parts = text.split(',');
    let a = read_coordinate(parts.next()?)?;
    let b = read_coordinate(parts.next()?)?;
    let c = read_coordinate(parts.next()?)?;
    if parts.next().is_some() {
        return None;
    }
    Some(Coordinates { a, b, c })
}

fn read_coordinate(text: &str) -> Option<i16> {
    if is_plain(text.as_bytes()) {
        text.parse::<i16>().ok()
    } else {
        None
    }
}

// 1 to 3 digits with no leading zero, behind a minus if it is negative.
fn is_plain(text: &[u8]) -> bool {
    match text {
        [b'0'] => true,
        [b'-', b'1'..=b'9', rest @ ..] | [b'1'..=b'9', rest @ ..] => rest.len() <= 2
            && rest.iter().all(|byte| byte.is_ascii_digit()),
        _ => false,
    }
}
