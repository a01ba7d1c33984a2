// The line of a message's contents.
ghost use Rattle.io.specs.Counts.{IsPrefixLen};

use crate::parts::{put_biases, put_clocks, put_codes, put_mask, put_orbits};
use console::put::{cursor_in, put_byte, put_text};
use contents::parts::Contents;

// The clock part of a type 6 or 7, if it has records.
fn put_both_clocks(room: &mut [u8], at: usize, c: &Contents) -> usize
    ensures { IsPrefixLen result room.new }
{
    if c.clock.count == 0 {
        return cursor_in(room, at);
    }
    let slotted = c.kind == 7;
    let text: &[u8] = if slotted {
        b" clock-epoch # clock-ssr # clocks"
    } else {
        b" clock-epoch # clock-ssr # iodp # from # clocks"
    };
    put_clocks(room, at, text, &c.clock, slotted)
}

// The orbit part of a type 6 or 7, if it has records.
fn put_both_orbits(room: &mut [u8], at: usize, c: &Contents) -> usize
    ensures { IsPrefixLen result room.new }
{
    if c.orbit.count == 0 {
        return cursor_in(room, at);
    }
    put_orbits(room, at, b" orbit-epoch # orbit-ssr # orbits", &c.orbit)
}

// The two parts of a type 6 or 7.
fn put_both(room: &mut [u8], at: usize, c: &Contents) -> usize
    ensures { IsPrefixLen result room.new }
{
    let a = put_both_clocks(room, at, c);
    put_both_orbits(room, a, c)
}

// The parts of a type.
fn put_parts(room: &mut [u8], at: usize, c: &Contents) -> usize
    ensures { IsPrefixLen result room.new }
{
    match c.kind {
        1 => put_mask(room, at, &c.mask),
        2 => put_orbits(room, at, b" epoch # ssr # orbits", &c.orbit),
        3 => put_biases(room, at, &c.bias),
        4 => put_clocks(
            room,
            at,
            b" epoch # ssr # iodp # sub # clocks",
            &c.clock,
            false,
        ),
        5 => put_codes(room, at, &c.code),
        6 | 7 => put_both(room, at, c),
        _ => cursor_in(room, at),
    }
}

// Contents: the type, its parts and the line's end.
pub(crate) fn put_contents(room: &mut [u8], at: usize, c: &Contents) -> usize
    ensures { IsPrefixLen result room.new }
{
    let numbers = [u64::from(c.kind)];
    let a = put_text(room, at, b"type #", &numbers);
    let b = put_parts(room, a, c);
    put_byte(room, b, b'\n')
}
