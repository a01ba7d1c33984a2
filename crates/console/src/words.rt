// Words and numbers of a line.
ghost use Rattle.std.specs.Prelude.{◌≡◌, ◌≤◌, true, nat_abs, length};
ghost use Rattle.console.specs.Words.{value_of, size_of};

use crate::put::cursor_in;

// The bytes of a line from one position to another; no word where the two are one.
#[derive(Clone, Copy)]
pub struct Word {
    pub from: usize,
    pub to: usize,
}

// Whether a byte separates words.
fn is_blank(b: u8) -> bool {
    matches!(b, b' ' | b'\t' | b'\r')
}

// The first position from a position on that has a blank, or that has none; the line's end where there is no such one.
fn seek(s: &[u8], at: usize, blank: bool) -> usize
    requires { at ≤ length s.now }
    ensures { (at ≤ result) × (result ≤ length s.now) }
{
    match s[at..].iter().position(|&b| is_blank(b) == blank) {
        Some(i) => at + i,
        None => s.len(),
    }
}

// The first word from a position on.
pub fn next_word(s: &[u8], at: usize) -> Word
    ensures { (result.from ≤ result.to) × (result.to ≤ length s.now) }
{
    let first = cursor_in(s, at);
    let from = seek(s, first, false);
    let to = seek(s, from, true);
    Word { from, to }
}

// A number with one more digit, 999999999 where it would be more than that; none where a byte is no digit.
fn with_digit(v: u32, b: u8) -> Option<u32>
    ensures { value_of result ≤ 999999999 }
{
    if !b.is_ascii_digit() {
        return None;
    }
    if v >= 100000000 {
        return Some(999999999);
    }
    Some(v * 10 + u32::from(b - b'0'))
}

// The number that a text of digits says; 999999999 stands for that and all above.
pub fn number_of(s: &[u8]) -> Option<u32>
    ensures { value_of result ≤ 999999999 }
{
    if s.is_empty() {
        return None;
    }
    let mut v = 0;
    for &b in s {
        v = with_digit(v, b)?;
    }
    Some(v)
}

// A raw value by its sign and size; 32767 either way stands for that and all further out.
fn raw_from(below: bool, size: u32) -> i16
    ensures { nat_abs result ≤ 32767 }
{
    let m = size.min(32767) as i16;
    if below { -m } else { m }
}

// The number that a text of digits, with or without a minus sign, says; 32767 either way stands for that and all further out.
pub fn raw_of(s: &[u8]) -> Option<i16>
    ensures { size_of result ≤ 32767 }
{
    match s.strip_prefix(b"-") {
        Some(size) => Some(raw_from(true, number_of(size)?)),
        None => Some(raw_from(false, number_of(s)?)),
    }
}

// Whether a text starts with a byte.
pub fn starts(s: &[u8], b: u8) -> bool
    ensures { result ≡ true → 1 ≤ length s.now }
{
    !s.is_empty() && s[0] == b
}

// Whether a text is an option: a minus sign and more. A minus sign alone is standard input.
pub fn is_option(s: &[u8]) -> bool
    ensures { result ≡ true → 2 ≤ length s.now }
{
    s.len() > 1 && s[0] == b'-'
}

// How many bytes the byte order mark has that a text starts with: 3, or 0 where it starts with none.
pub fn after_mark(s: &[u8]) -> usize
    ensures { result ≤ length s.now }
{
    if s.starts_with(b"\xef\xbb\xbf") { 3 } else { 0 }
}

// Where the text of a line begins: after the byte order mark that line 1 may start with.
pub fn text_start(s: &[u8], number: u64) -> usize
    ensures { result ≤ length s.now }
{
    if number == 1 { after_mark(s) } else { 0 }
}

// Whether a line says nothing: it is blank, or a comment.
pub fn is_remark(s: &[u8]) -> bool {
    let w = next_word(s, 0);
    let a = w.from;
    let b = w.to;
    a == b || starts(&s[a..b], b'#')
}
