// The line of a subframe's fields.
ghost use Rattle.io.specs.Counts.{IsPrefixLen};

use console::put::{cursor_in, put_byte, put_bytes, put_number};

// A minus sign in front of a number below 0.
fn put_sign(room: &mut [u8], at: usize, x: i64) -> usize
    ensures { IsPrefixLen result room.new }
{
    if x < 0 {
        return put_byte(room, at, b'-');
    }
    cursor_in(room, at)
}

// A field: its name, a blank and its number.
fn put_one(room: &mut [u8], at: usize, name: &[u8], x: i64) -> usize
    ensures { IsPrefixLen result room.new }
{
    let a = put_bytes(room, at, name);
    let b = put_byte(room, a, b' ');
    let c = put_sign(room, b, x);
    put_number(room, c, x.unsigned_abs())
}

// The names of the fields, in 001's order.
fn names() -> &'static [u8] {
    b"wn how iodc iode toe sattype da adot dn0 dn0dot m0 e omega omega0 i0 omegadot i0dot \
    cis cic crs crc cus cuc toc a0 a1 a2 tgdb2ap iscb1cd tgdb1cp rev"
}

// All fields, with a blank between two.
pub(crate) fn put_fields(room: &mut [u8], fields: &[i64; 31]) -> usize
    ensures { IsPrefixLen result room.new }
{
    let mut n = 0;
    for (name, &x) in names().split(|&b| b == b' ').zip(fields) {
        if n > 0 {
            n = put_byte(room, n, b' ');
        }
        n = put_one(room, n, name, x);
    }
    n
}
