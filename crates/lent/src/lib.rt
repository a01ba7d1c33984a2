// Bytes of lent room: read, stored, cleared, and the numbers that they say.
#![tactic(auto)]

ghost use Rattle.std.specs.Prelude.{◌≡◌, ◌+◌, ◌≤◌, ◌<◌, length, get_or, take, replicate};
ghost use Rattle.bits.specs.Bytes.{store_at};
ghost use Rattle.lent.specs.Digits.{flag_of, zig_of, zag_of, pair_of, quad_of, two_at, four_at};

// The bytes of r that a room has place for are stored, where it has place for no more. Never inlined: two copies that end one function would be
// compiled as one copy of an unknown length, and a caller of store mostly knows the length of r. Kept: a copy of slices of unknown length would be
// compiled as a call of memmove, and the library for C needs memcpy and memset alone.
#[inline(never)]
fn store_part(room: &mut [u8], r: &[u8])
    requires { length room.old ≤ length r.now }
    ensures { room.new ≡ take (length room.old) r.now }
{
    for i in 0..room.len() {
        room[i] = r[i];
    }
}

// The bytes of r are stored from at on; those past the end of t are lost.
pub fn store(t: &mut [u8], at: usize, r: &[u8])
    ensures { t.new ≡ store_at t.old at r.now }
{
    if at < t.len() {
        let room = t.len() - at;
        if r.len() <= room {
            t[at..at + r.len()].copy_from_slice(r);
        } else {
            store_part(&mut t[at..], r);
        }
    }
}

// A flag as a byte.
pub fn flag(b: bool) -> u8
    ensures { result ≡ flag_of b }
{
    u8::from(b)
}

// A number with its sign as one without.
pub fn zig(z: i16) -> u16
    ensures { result ≡ zig_of z }
{
    if z < 0 {
        let m = (-1 - z) as u16;
        2 * m + 1
    } else {
        2 * (z as u16)
    }
}

// The number with its sign that one without stands for.
pub fn zag(n: u16) -> i16
    ensures { result ≡ zag_of n }
{
    let m = (n / 2) as i16;
    if n % 2 == 0 { m } else { -1 - m }
}

// The number that two bytes say, high first.
pub fn pair(hi: u8, lo: u8) -> u16
    ensures { result ≡ pair_of hi lo }
{
    u16::from_be_bytes([hi, lo])
}

// The number that two numbers of two bytes say, high first.
pub fn quad(hi: u16, lo: u16) -> u32
    ensures { result ≡ quad_of hi lo }
{
    65536 * u32::from(hi) + u32::from(lo)
}

// Byte at; 0 past the end.
pub fn byte(t: &[u8], at: usize) -> u8
    ensures { result ≡ get_or t.now at 0 }
{
    if at < t.len() { t[at] } else { 0 }
}

// The number that two bytes from `at` on say, high byte first; bytes past the end are 0.
pub fn two(t: &[u8], at: usize) -> u16
    ensures { result ≡ two_at t.now at }
{
    if at < t.len() {
        pair(t[at], byte(t, at + 1))
    } else {
        0
    }
}

// The number that the third and the fourth byte from `at` on say.
fn low_two(t: &[u8], at: usize) -> u16
    requires { at < length t.now }
    ensures { result ≡ pair_of (get_or t.now (at + 2) 0) (get_or t.now (at + 3) 0) }
{
    if at + 1 < t.len() { two(t, at + 2) } else { 0 }
}

// The number that four bytes from `at` on say, high byte first; bytes past the end are 0.
pub fn four(t: &[u8], at: usize) -> u32
    ensures { result ≡ four_at t.now at }
{
    if at < t.len() {
        quad(two(t, at), low_two(t, at))
    } else {
        0
    }
}

// Every byte is made 0.
pub fn clear(t: &mut [u8])
    ensures { t.new ≡ replicate (length t.old) 0 }
{
    t.fill(0);
}
