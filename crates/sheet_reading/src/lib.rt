// Reading a correction sheet: 02, CR 7. Nothing is asked of the bytes.
#![tactic(auto)]

ghost use Rattle.std.specs.Prelude.{◌≡◌, ◌+◌, ◌≤◌, ◌<◌, length};
ghost use Rattle.bits.specs.Bytes.{row_at};
ghost use Rattle.lent.specs.Digits.{two_at, four_at};
ghost use Rattle.records.specs.Signed.{signed_of};
ghost use Rattle.sheet_form.specs.Reading.{absolute, is_given, value_at, opens, header_ok, slot_ok, values_ok, row_ok, end_ok, header_said, row_said};
ghost use Rattle.sheet_reading.specs.Answer.{read_says, read_answer};

use row::Row;
use sheet_form::Header;
use slots::Slot;
use std::array;

// The offset of refusal 23.
#[derive(Clone, Copy, PartialEq, Eq)]
pub struct Wrong(pub u32);

// The header of a sheet that is read, or where it is wrong.
pub type SheetRead = Result<Header, Wrong>;

// The number of two bytes that are there.
fn two_in(s: &[u8], at: usize) -> u16
    requires { at + 1 < length s.now }
    ensures { result ≡ two_at s.now at }
{
    lent::pair(s[at], s[at + 1])
}

// The number of four bytes that are there, without its sign.
fn four_in(s: &[u8], at: usize) -> u32
    requires { at + 3 < length s.now }
    ensures { result ≡ four_at s.now at }
{
    lent::quad(
        lent::pair(s[at], s[at + 1]),
        lent::pair(s[at + 2], s[at + 3]),
    )
}

// How far from 0 the number is that 32 bits say in two's complement.
fn absolute_of(x: u32) -> u32
    ensures { result ≡ absolute (signed_of 32 x) }
{
    if x < 2147483648 {
        x
    } else {
        4294967295 - x + 1
    }
}

// Whether 32 bits say a value that a usable raw number gives.
fn is_given(scale: u32, most: u32, x: u32) -> bool
    requires { 0 < scale }
    ensures { result ≡ is_given scale most (signed_of 32 x) }
{
    let m = absolute_of(x);
    (m % scale == 0) & (m / scale <= most)
}

// Whether the field at an offset has this tag and this length.
fn is_opened(s: &[u8], at: usize, tag: u8, size: u16) -> bool
    requires { at + 2 < length s.now }
    ensures { result ≡ opens s.now at tag size }
{
    (s[at] == tag) & (two_in(s, at + 1) == size)
}

// Whether the header is right.
fn header_ok(s: &[u8], limit: u16) -> bool
    ensures { result ≡ header_ok limit s.now }
{
    if s.len() < 8 {
        return false;
    }
    is_opened(s, 0, 1, 5)
        & frame::is_prn(s[3])
        & (s[4] <= 3)
        & (s[5] <= 15)
        & (two_in(s, 6) <= limit)
}

// Whether a slot may stand after the one before it.
fn slot_ok(rising: bool, before: u8, slot: u8) -> bool
    ensures { result ≡ slot_ok rising before slot }
{
    (1 <= slot) & (slot <= 174) & (!rising | (before < slot))
}

// Whether a usable raw number gives each of a row's four values.
fn values_ok(s: &[u8], at: usize) -> bool
    requires { at + 24 ≤ length s.now }
    ensures { result ≡ values_ok s.now at }
{
    is_given(16, 16383, four_in(s, at + 7))
        & is_given(64, 4095, four_in(s, at + 11))
        & is_given(64, 4095, four_in(s, at + 15))
        & is_given(16, 16383, four_in(s, at + 19))
}

// Whether the row at an offset is right, after the slot before it.
fn row_ok(s: &[u8], rising: bool, before: u8, at: u32) -> bool
    ensures { result ≡ row_ok rising before s.now at }
{
    let a = at as usize;
    if s.len() < a + 24 {
        return false;
    }
    is_opened(s, a, 2, 21)
        & slot_ok(rising, before, s[a + 3])
        & (two_in(s, a + 4) <= 1023)
        & (s[a + 6] <= 7)
        & values_ok(s, a)
        & (1 <= s[a + 23])
        & (s[a + 23] <= 63)
}

// Whether the end stands at an offset.
fn end_ok(s: &[u8], at: u32) -> bool
    ensures { result ≡ end_ok s.now at }
{
    let a = at as usize;
    if s.len() < a + 3 {
        return false;
    }
    is_opened(s, a, 255, 0)
}

// What the header says.
fn header_said(s: &[u8]) -> Header
    ensures { result ≡ header_said s.now }
{
    let prn = lent::byte(s, 3);
    let ssr = lent::byte(s, 4);
    let iodp = lent::byte(s, 5);
    let rows = lent::two(s, 6);
    Header {
        prn,
        ssr,
        iodp,
        rows,
    }
}

// A sheet is read: at most `limit` rows, in rising slot order or in any.
pub fn read_sheet(sheet: &[u8], limit: u16, rising: bool) -> SheetRead
    ensures { read_says result ≡ read_answer limit rising sheet.now }
{
    if !header_ok(sheet, limit) {
        return Err(Wrong(0));
    }
    let header = header_said(sheet);
    let mut before: u8 = 0;
    for k in 0..header.rows {
        let at = 8 + 24 * k as u32;
        if !row_ok(sheet, rising, before, at) {
            return Err(Wrong(at));
        }
        before = sheet[at as usize + 3];
    }
    let end = 8 + 24 * header.rows as u32;
    if !end_ok(sheet, end) {
        return Err(Wrong(end));
    }
    if sheet.len() != end as usize + 3 {
        return Err(Wrong(end + 3));
    }
    Ok(header)
}

// The number that 32 bits say in two's complement.
fn signed32(x: u32) -> i32
    ensures { result ≡ signed_of 32 x }
{
    if x < 2147483648 {
        x as i32
    } else {
        let d = (4294967295 - x) as i32;
        -1 - d
    }
}

// The value of four bytes that are there.
fn value_in(s: &[u8], at: usize) -> i32
    requires { at + 3 < length s.now }
    ensures { result ≡ value_at s.now at }
{
    signed32(four_in(s, at))
}

// What a row that is there says.
fn row_in(s: &[u8], at: usize) -> Row
    requires { at + 24 ≤ length s.now }
    ensures { result ≡ row_said s.now at }
{
    let slot = s[at + 3];
    let satellite = slots::satellite_of(Slot(slot));
    let system = satellite.system;
    let ura = ura::ura_of(s[at + 23]);
    let iodn = two_in(s, at + 4);
    let corr = s[at + 6];
    let radial = value_in(s, at + 7);
    let along = value_in(s, at + 11);
    let cross = value_in(s, at + 15);
    let clock = value_in(s, at + 19);
    Row {
        slot: Slot(slot),
        system,
        number: satellite.number,
        iodn,
        corr,
        radial,
        along,
        cross,
        clock,
        ura,
    }
}

// The 24 bytes from an offset on; bytes past the end are 0.
fn padded(s: &[u8], at: u32) -> [u8; 24]
    ensures { result ≡ row_at s.now at 24 }
{
    array::from_fn(|i| lent::byte(s, at as usize + i))
}

// The row whose field begins at an offset; bytes past the end are 0. The next row's field begins 24 bytes further.
pub fn row_said(sheet: &[u8], at: u32) -> Row
    ensures { result ≡ row_said sheet.now at }
{
    let a = at as usize;
    if sheet.len() < a + 24 {
        let bytes = padded(sheet, at);
        return row_in(&bytes, 0);
    }
    row_in(sheet, a)
}
