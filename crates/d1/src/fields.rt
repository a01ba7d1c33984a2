// What a line says of a subframe: FraID, SOW, and the 28 bytes of its information bits in hexadecimal.
ghost use Rattle.std.specs.Prelude.{◌≡◌, ◌≤◌, IfSome};
ghost use Rattle.io.specs.Counts.{IsPrefixLen};
ghost use Rattle.d1_subframes.specs.Subframe.{frame_of, second_of};

use console::put::{cursor_in, put_bytes};

// FraID of information bits.
pub(crate) fn frame_of(d: &[u8]) -> u8
    ensures { result ≡ frame_of d.now }
{
    bits::get8(d, 15, 3)
}

// SOW of information bits.
pub(crate) fn second_of(d: &[u8]) -> u32
    ensures { result ≡ second_of d.now }
{
    bits::get32(d, 18, 20)
}

// A byte as two digits.
fn put_pair(room: &mut [u8], at: usize, x: u8) -> usize
    ensures { IsPrefixLen result room.new }
{
    let mut digits = [0u8; 16];
    let k = io::hex(u64::from(x), 2, &mut digits);
    put_bytes(room, at, &digits[..k])
}

// Bytes as digits, two each.
pub(crate) fn put_hex(room: &mut [u8], at: usize, s: &[u8]) -> usize
    ensures { IsPrefixLen result room.new }
{
    let mut n = cursor_in(room, at);
    for &x in s {
        n = put_pair(room, n, x);
    }
    n
}

// The number that a digit says.
fn value_of(b: u8) -> Option<u8>
    ensures { IfSome result (λ v. v ≤ 15) }
{
    match b {
        b'0'..=b'9' => Some(b - b'0'),
        b'a'..=b'f' => Some(b - b'a' + 10),
        _ => None,
    }
}

// The byte that two digits say.
fn pair_of(first: u8, second: u8) -> Option<u8> {
    Some(16 * value_of(first)? + value_of(second)?)
}

// The 28 bytes that a text of 56 digits says.
pub(crate) fn data_of(w: &[u8]) -> Option<[u8; 28]> {
    if w.len() != 56 {
        return None;
    }
    let mut bytes = [0u8; 28];
    for i in 0..28 {
        bytes[i] = pair_of(w[2 * i], w[2 * i + 1])?;
    }
    Some(bytes)
}
