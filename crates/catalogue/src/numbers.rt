// Writing numbers.
ghost use Rattle.std.specs.Prelude.{◌≡◌, ◌≤◌, length, decimal};
ghost use Rattle.std.specs.Fmt.{signed_decimal};
ghost use Rattle.ordered.specs.Lookups.{over};

// How many digits the number has.
pub(crate) fn number_length(n: u64) -> usize
    ensures value { result ≡ length (decimal n) }
    ensures few { result ≤ 20 }
{
    if n < 10 { 1 } else { number_length(n / 10) + 1 }
}

// Writes the number to the start of what is left of a buffer, and tells its length.
pub(crate) fn put_number(rest: &mut [u8], n: u64) -> usize
    requires { length (decimal n) ≤ length rest.old }
    ensures value { result ≡ length (decimal n) }
    ensures after { rest.new ≡ over (decimal n) rest.old }
{
    if n < 10 {
        rest[0] = b'0' + n as u8;
        1
    } else {
        let at = put_number(rest, n / 10);
        rest[at] = b'0' + (n % 10) as u8;
        at + 1
    }
}

pub(crate) fn signed_length(z: i8) -> usize
    ensures value { result ≡ length (signed_decimal z) }
    ensures few { result ≤ 4 }
{
    let digits = number_length(u64::from(z.unsigned_abs()));
    if z < 0 { digits + 1 } else { digits }
}

pub(crate) fn put_signed(rest: &mut [u8], z: i8) -> usize
    requires { length (signed_decimal z) ≤ length rest.old }
    ensures value { result ≡ length (signed_decimal z) }
    ensures after { rest.new ≡ over (signed_decimal z) rest.old }
{
    let size = u64::from(z.unsigned_abs());
    if z < 0 {
        rest[0] = b'-';
        put_number(&mut rest[1..], size) + 1
    } else {
        put_number(rest, size)
    }
}
