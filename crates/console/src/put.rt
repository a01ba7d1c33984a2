// Text put into a lent room at a cursor. Each function answers the cursor after it, which is never past the room's end;
// what does not fit is left out.
ghost use Rattle.io.specs.Counts.{IsPrefixLen};

use ura::Ura;
use verdict::{Refusal, Verdict};

// The cursor itself, or the room's end where it lies past that.
pub fn cursor_in(room: &[u8], at: usize) -> usize
    ensures { IsPrefixLen result room.now }
{
    at.min(room.len())
}

// One byte.
pub fn put_byte(room: &mut [u8], at: usize, b: u8) -> usize
    ensures { IsPrefixLen result room.new }
{
    if at < room.len() {
        room[at] = b;
        return at + 1;
    }
    room.len()
}

// Bytes in a row.
pub fn put_bytes(room: &mut [u8], at: usize, s: &[u8]) -> usize
    ensures { IsPrefixLen result room.new }
{
    let from = cursor_in(room, at);
    let n = s.len().min(room.len() - from);
    room[from..from + n].copy_from_slice(&s[..n]);
    from + n
}

// A number in decimal.
pub fn put_number(room: &mut [u8], at: usize, x: u64) -> usize
    ensures { IsPrefixLen result room.new }
{
    let mut digits = [0u8; 20];
    let k = io::decimal(x, &mut digits);
    put_bytes(room, at, &digits[..k])
}

// A minus sign in front of a number below 0.
fn put_sign(room: &mut [u8], at: usize, x: i32) -> usize
    ensures { IsPrefixLen result room.new }
{
    if x < 0 {
        return put_byte(room, at, b'-');
    }
    cursor_in(room, at)
}

// A number in decimal, with a minus sign below 0.
pub fn put_signed(room: &mut [u8], at: usize, x: i32) -> usize
    ensures { IsPrefixLen result room.new }
{
    let n = put_sign(room, at, x);
    put_number(room, n, u64::from(x.unsigned_abs()))
}

// The last decimal digit of a number.
fn put_digit(room: &mut [u8], at: usize, x: u64) -> usize
    ensures { IsPrefixLen result room.new }
{
    let d = (x % 10) as u8;
    put_byte(room, at, b'0' + d)
}

// The last two decimal digits of a number.
pub fn put_two(room: &mut [u8], at: usize, x: u64) -> usize
    ensures { IsPrefixLen result room.new }
{
    let n = put_digit(room, at, x / 10);
    put_digit(room, n, x)
}

// Tenths of a millimetre as metres with four decimals.
pub fn put_metres(room: &mut [u8], at: usize, tenths: i32) -> usize
    ensures { IsPrefixLen result room.new }
{
    let size = u64::from(tenths.unsigned_abs());
    let a = put_sign(room, at, tenths);
    let b = put_number(room, a, size / 10000);
    let c = put_byte(room, b, b'.');
    let d = put_two(room, c, size / 100);
    put_two(room, d, size)
}

// Quarter millimetres as millimetres with two decimals.
pub fn put_quarters(room: &mut [u8], at: usize, quarters: u32) -> usize
    ensures { IsPrefixLen result room.new }
{
    let q = u64::from(quarters);
    let a = put_number(room, at, q / 4);
    let b = put_byte(room, a, b'.');
    put_two(room, b, q % 4 * 25)
}

// A URA in millimetres.
pub fn put_ura_mm(room: &mut [u8], at: usize, u: Ura) -> usize
    ensures { IsPrefixLen result room.new }
{
    match u {
        Ura::Unknown => put_bytes(room, at, b"unknown"),
        Ura::Quarters(q) => put_quarters(room, at, q),
        Ura::Above => put_bytes(room, at, b"above"),
    }
}

// A URA in quarter millimetres.
pub fn put_ura(room: &mut [u8], at: usize, u: Ura) -> usize
    ensures { IsPrefixLen result room.new }
{
    match u {
        Ura::Unknown => put_bytes(room, at, b"unknown"),
        Ura::Quarters(q) => put_number(room, at, u64::from(q)),
        Ura::Above => put_bytes(room, at, b"above"),
    }
}

// A text with the next of some numbers for each mark # in it; 0 where there is none.
pub fn put_text(room: &mut [u8], at: usize, text: &[u8], numbers: &[u64]) -> usize
    ensures { IsPrefixLen result room.new }
{
    let mut n = cursor_in(room, at);
    let mut marks = numbers.iter();
    for &b in text {
        n = if b == b'#' {
            put_number(room, n, marks.next().copied().unwrap_or(0))
        } else {
            put_byte(room, n, b)
        };
    }
    n
}

// A word and a number, each after a blank.
pub fn put_field(room: &mut [u8], at: usize, word: &[u8], x: u64) -> usize
    ensures { IsPrefixLen result room.new }
{
    let a = put_byte(room, at, b' ');
    let b = put_bytes(room, a, word);
    let c = put_byte(room, b, b' ');
    put_number(room, c, x)
}

// What a refusal says beside its number: of 6 the first failing group and how many fail, of 19 the number of places.
pub fn put_detail(room: &mut [u8], at: usize, v: Verdict) -> usize
    ensures { IsPrefixLen result room.new }
{
    match v {
        Ok(()) | Err(Refusal::Number(_)) => cursor_in(room, at),
        Err(Refusal::Parity(first, failing)) => {
            let a = put_field(room, at, b"group", first as u64);
            put_field(room, a, b"failing", failing as u64)
        }
        Err(Refusal::Places(set)) => put_field(room, at, b"places", set as u64),
    }
}

// A program and a file: the start of a complaint.
pub fn put_file(room: &mut [u8], program: &[u8], file: &[u8]) -> usize
    ensures { IsPrefixLen result room.new }
{
    let a = put_bytes(room, 0, program);
    let b = put_bytes(room, a, b": ");
    put_bytes(room, b, file)
}

// A program, a file, and a line or an offset there by its word and number.
pub fn put_where(room: &mut [u8], program: &[u8], file: &[u8], word: &[u8], x: u64) -> usize
    ensures { IsPrefixLen result room.new }
{
    let a = put_file(room, program, file);
    let b = put_byte(room, a, b':');
    put_field(room, b, word, x)
}

// A byte of printable ASCII as it is, a question mark for any other.
fn printable(b: u8) -> u8 {
    if matches!(b, b' '..=b'~') { b } else { b'?' }
}

// Bytes in a row, each printable.
fn put_printable(room: &mut [u8], at: usize, s: &[u8]) -> usize
    ensures { IsPrefixLen result room.new }
{
    let mut n = cursor_in(room, at);
    for &b in s {
        n = put_byte(room, n, printable(b));
    }
    n
}

// A word between quotation marks; of a longer one than 40 bytes those, and two dots.
pub fn put_quoted(room: &mut [u8], at: usize, word: &[u8]) -> usize
    ensures { IsPrefixLen result room.new }
{
    let k = cursor_in(word, 40);
    let a = put_byte(room, at, b'"');
    let b = put_printable(room, a, &word[..k]);
    let c = put_byte(room, b, b'"');
    if k < word.len() {
        return put_bytes(room, c, b"..");
    }
    c
}

// What was found instead of what was expected: a word, or the end of the line where there is none.
pub fn put_found(room: &mut [u8], at: usize, word: &[u8]) -> usize
    ensures { IsPrefixLen result room.new }
{
    if word.is_empty() {
        return put_bytes(room, at, b", found the end of the line");
    }
    let a = put_bytes(room, at, b", found ");
    put_quoted(room, a, word)
}
