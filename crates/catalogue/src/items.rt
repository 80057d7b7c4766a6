// What stands in the fields of a line: numbers, coordinates and cells.
ghost use Rattle.std.specs.Prelude.{◌≡◌, ℕ, ◌+◌, ◌≤◌, List, ◌∷◌, length, decimal};
ghost use Rattle.std.specs.Fmt.{signed_decimal};
ghost use Rattle.ordered.specs.Lookups.{over};
ghost use Rattle.catalogue.specs.Text.{cell_text};
ghost use Rattle.catalogue.specs.Writers.{behind};

use crate::numbers::{number_length, put_number, put_signed, signed_length};
use lattice::cell::Cell;

// Something that is written as a text of at most 20 bytes.
pub(crate) trait Item {
    ghost text: { Self → List ℕ };

    fn text_length(&self) -> usize
        ensures value { result ≡ length (text self.now) }
        ensures few { result ≤ 20 };

    // Writes the text to the start of what is left of a buffer, and tells its length.
    fn put(&self, rest: &mut [u8]) -> usize
        requires { length (text self.now) ≤ length rest.old }
        ensures value { result ≡ length (text self.now) }
        ensures after { rest.new ≡ over (text self.now) rest.old };
}

// The buffer comes whole, with the place beside it, since the clause says what the whole of it is then.
// Writes the mark and the item behind what a buffer holds up to `at`, and tells where they end.
pub(crate) fn put_behind<T: Item>(buffer: &mut [u8], at: usize, mark: u8, item: &T) -> usize
    requires { at + (1 + length (T.text item.now)) ≤ length buffer.old }
    ensures value { result ≡ at + (1 + length (T.text item.now)) }
    ensures after { buffer.new ≡ behind at (mark ∷ T.text item.now) buffer.old }
{
    buffer[at] = mark;
    at + 1 + item.put(&mut buffer[at + 1..])
}

impl Item for u64 {
    ghost text = { decimal };

    fn text_length(&self) -> usize {
        number_length(*self)
    }

    fn put(&self, rest: &mut [u8]) -> usize {
        put_number(rest, *self)
    }
}

// A motion number, written as the u64 that it is. One impl for every `Into<u64>` would stand in the way of those for i8 and Cell.
impl Item for u8 {
    ghost text = { decimal };

    fn text_length(&self) -> usize {
        u64::from(*self).text_length()
    }

    fn put(&self, rest: &mut [u8]) -> usize {
        u64::from(*self).put(rest)
    }
}

// A coordinate.
impl Item for i8 {
    ghost text = { signed_decimal };

    fn text_length(&self) -> usize {
        signed_length(*self)
    }

    fn put(&self, rest: &mut [u8]) -> usize {
        put_signed(rest, *self)
    }
}

// A cell: its coordinates, parted by commas.
impl Item for Cell {
    ghost text = { cell_text };

    fn text_length(&self) -> usize {
        signed_length(self.a) + signed_length(self.b) + signed_length(self.c) + 2
    }

    fn put(&self, rest: &mut [u8]) -> usize {
        let at = self.a.put(rest);
        let at = put_behind(rest, at, b',', &self.b);
        put_behind(rest, at, b',', &self.c)
    }
}
