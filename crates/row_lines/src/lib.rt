// Rows as lines of a table: slot and satellite, numbers, values in metres and URA in millimetres, with a separator between them.
#![tactic(auto)]

ghost use Rattle.io.specs.Counts.{IsPrefixLen};

use console::put::{cursor_in, put_byte, put_metres, put_number, put_ura_mm};
use inputs::satellites::put_name;
use row::Row;
use slots::Slot;

// A separator and metres.
fn put_length(room: &mut [u8], at: usize, by: u8, tenths: i32) -> usize
    ensures { IsPrefixLen result room.new }
{
    let a = put_byte(room, at, by);
    put_metres(room, a, tenths)
}

// A separator and a number.
pub fn put_next(room: &mut [u8], at: usize, by: u8, x: u64) -> usize
    ensures { IsPrefixLen result room.new }
{
    let a = put_byte(room, at, by);
    put_number(room, a, x)
}

// A slot, a separator and its satellite as RINEX names it.
pub fn put_satellite(room: &mut [u8], at: usize, by: u8, slot: Slot) -> usize
    ensures { IsPrefixLen result room.new }
{
    let a = put_number(room, at, u64::from(slot.0));
    let b = put_byte(room, a, by);
    put_name(room, b, slot)
}

// The values of a row: orbit and clock in metres.
fn put_values(room: &mut [u8], at: usize, by: u8, r: Row) -> usize
    ensures { IsPrefixLen result room.new }
{
    let a = put_length(room, at, by, r.radial);
    let b = put_length(room, a, by, r.along);
    let c = put_length(room, b, by, r.cross);
    put_length(room, c, by, r.clock)
}

// A row: slot, satellite, IODN, IOD Corr, values, URA.
pub fn put_row(room: &mut [u8], at: usize, by: u8, r: Row) -> usize
    ensures { IsPrefixLen result room.new }
{
    let a = put_satellite(room, at, by, r.slot);
    let b = put_next(room, a, by, u64::from(r.iodn));
    let c = put_next(room, b, by, u64::from(r.corr));
    let d = put_values(room, c, by, r);
    let e = put_byte(room, d, by);
    put_ura_mm(room, e, r.ura)
}

// A text, each of its blanks the separator.
pub fn put_words(room: &mut [u8], at: usize, by: u8, text: &[u8]) -> usize
    ensures { IsPrefixLen result room.new }
{
    let mut n = cursor_in(room, at);
    for &b in text {
        n = put_byte(room, n, if b == b' ' { by } else { b });
    }
    n
}

// The head of the table: the name of each part of a row.
pub fn put_head(room: &mut [u8], at: usize, by: u8) -> usize
    ensures { IsPrefixLen result room.new }
{
    put_words(
        room,
        at,
        by,
        b"slot sat iodn corr radial_m along_m cross_m clock_m ura_mm",
    )
}
