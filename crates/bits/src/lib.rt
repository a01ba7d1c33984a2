// Bits and fields of bytes, high bit first. Bits past the end are 0.
#![tactic(auto)]

ghost use Rattle.std.specs.Prelude.{◌≡◌, ◌+◌, ◌-◌, ◌*◌, ◌/◌, ◌%◌, ◌<◌, ◌≤◌, ◌^◌, length, get_or};
ghost use Rattle.bits.specs.Bits.{bit_at, field_at, got_at};

// Bit i; 0 past the end.
pub fn bit(s: &[u8], i: usize) -> u8
    ensures { result ≡ bit_at s.now i }
{
    let at = i / 8;
    let by = 7 - i % 8;
    if at < s.len() { (s[at] >> by) % 2 } else { 0 }
}

// Byte j; 0 past the end.
fn byte_at(s: &[u8], j: usize) -> u64
    ensures { result ≡ get_or s.now j 0 }
{
    if j < s.len() { s[j] as u64 } else { 0 }
}

// The m bits of a byte from bit r on, after those in x.
fn more(x: u64, b: u64, r: usize, m: usize) -> u64
    requires { (r + m ≤ 8) × (x * 2 ^ m + b / 2 ^ (8 - r - m) % 2 ^ m < 2 ^ 64) }
    ensures { result ≡ x * 2 ^ m + b / 2 ^ (8 - r - m) % 2 ^ m }
{
    let h = 8 - r - m;
    let p = 1u64 << m;
    x * p + (b >> h) % p
}

// The field of n bits from bit at on, a byte a turn; more than 64 bits: 0.
// Kept: no plainer: a turn takes as many bits as its byte has left, so no range counts the turns.
fn by_bytes(s: &[u8], at: usize, n: usize) -> u64
    ensures { result ≡ got_at 64 s.now at n }
{
    if n > 64 {
        return 0;
    }
    let mut x: u64 = 0;
    let mut left = n;
    let mut j = at / 8;
    let mut r = at % 8;
    while 0 < left {
        let b = byte_at(s, j);
        let m = left.min(8 - r);
        x = more(x, b, r, m);
        left -= m;
        j += 1;
        r = 0;
    }
    x
}

// The 32 bits from byte j on.
fn four(s: &[u8], j: usize) -> u64
    requires { (j + 3 < length s.now) × (j < 2 ^ 62) }
    ensures { result ≡ field_at s.now (8 * j) 32 }
{
    u64::from(u32::from_be_bytes([s[j], s[j + 1], s[j + 2], s[j + 3]]))
}

// The n bits after the first r of the low m bits of w.
fn part(w: u64, m: usize, r: usize, n: usize) -> u64
    requires { (r + n ≤ m) × (m < r + n + 64) × (n < 57) }
    ensures { result ≡ w / 2 ^ (m - r - n) % 2 ^ n }
{
    let h = m - r - n;
    let p = 1u64 << n;
    (w >> h) % p
}

// The field of n bits from bit at on; more than 64 bits: 0. Out of eight bytes at once where there are as many.
pub fn get(s: &[u8], at: usize, n: usize) -> u64
    ensures { result ≡ got_at 64 s.now at n }
{
    let j = at / 8;
    if 0 < n && n < 57 && j + 8 <= s.len() {
        let high = four(s, j);
        let low = four(s, j + 4);
        return part(high * 0x100000000 + low, 64, at % 8, n);
    }
    by_bytes(s, at, n)
}

// The field of n bits from bit at on, at most 25: out of four bytes at once where there are as many.
fn get_short(s: &[u8], at: usize, n: usize) -> u64
    requires { n ≤ 25 }
    ensures { result ≡ got_at 64 s.now at n }
{
    let j = at / 8;
    if s.len() < j + 4 {
        return by_bytes(s, at, n);
    }
    part(four(s, j), 32, at % 8, n)
}

// The field of n bits from bit at on; more than 8 bits: 0.
pub fn get8(s: &[u8], at: usize, n: usize) -> u8
    ensures { result ≡ got_at 8 s.now at n }
{
    if n > 8 {
        return 0;
    }
    get_short(s, at, n) as u8
}

// The field of n bits from bit at on; more than 16 bits: 0.
pub fn get16(s: &[u8], at: usize, n: usize) -> u16
    ensures { result ≡ got_at 16 s.now at n }
{
    if n > 16 {
        return 0;
    }
    get_short(s, at, n) as u16
}

// The field of n bits from bit at on; more than 32 bits: 0.
pub fn get32(s: &[u8], at: usize, n: usize) -> u32
    ensures { result ≡ got_at 32 s.now at n }
{
    if n > 32 {
        return 0;
    }
    if n <= 25 {
        return get_short(s, at, n) as u32;
    }
    get(s, at, n) as u32
}
