// List fields: items parted by one space.
ghost use Rattle.std.specs.Prelude.{◌≡◌, ◌+◌, ◌*◌, ◌≤◌, map, length};
ghost use Rattle.catalogue.specs.Writers.{behind, led};

use crate::items::{Item, put_behind};

// How long the items are, each behind one byte.
pub(crate) fn list_length<T: Item>(items: &[T]) -> usize
    requires { length items.now ≤ 48 }
    ensures value { result ≡ length (led 9 (map T.text items.now)) }
    ensures few { result ≤ 21 * length items.now }
{
    // not `map(..).sum()`: with it the proof has no bound on each length, and `few` did not close
    let mut total = 0;
    for item in items {
        total += 1 + item.text_length();
    }
    total
}

// Writes the items behind what a buffer holds up to `at`, the first behind a tab and each other one behind a space, and tells where they end.
pub(crate) fn put_list<T: Item>(buffer: &mut [u8], at: usize, items: &[T]) -> usize
    requires { at + length (led 9 (map T.text items.now)) ≤ length buffer.old }
    ensures value { result ≡ at + length (led 9 (map T.text items.now)) }
    ensures after { buffer.new ≡ behind at (led 9 (map T.text items.now)) buffer.old }
{
    let Some((first, rest)) = items.split_first() else {
        return at;
    };
    let mut end = put_behind(buffer, at, b'\t', first);
    for item in rest {
        end = put_behind(buffer, end, b' ', item);
    }
    end
}
