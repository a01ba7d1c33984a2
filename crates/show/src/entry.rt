// The entries of a line: slots, records, satellites, biases and accuracy indices.
ghost use Rattle.io.specs.Counts.{IsPrefixLen};

use biases::{Bias, BiasSat};
use console::put::{cursor_in, put_byte, put_bytes, put_signed, put_ura};
use records::clock::Clock;
use records::orbit::Orbit;
use ura::{Ura, ura_of};

// A value after a separator.
fn put_value(room: &mut [u8], at: usize, separator: u8, x: i32) -> usize
    ensures { IsPrefixLen result room.new }
{
    let a = put_byte(room, at, separator);
    put_signed(room, a, x)
}

// Values, the first after a separator and the others after strokes.
fn put_values(room: &mut [u8], at: usize, first: u8, values: &[i32]) -> usize
    ensures { IsPrefixLen result room.new }
{
    let mut n = cursor_in(room, at);
    let mut separator = first;
    for &x in values {
        n = put_value(room, n, separator, x);
        separator = b'/';
    }
    n
}

// An accuracy index after a separator.
fn put_index(room: &mut [u8], at: usize, separator: u8, u: Ura) -> usize
    ensures { IsPrefixLen result room.new }
{
    let a = put_byte(room, at, separator);
    put_ura(room, a, u)
}

// A slot, or a dash for a blank.
pub(crate) fn put_slot(room: &mut [u8], at: usize, slot: u16) -> usize
    ensures { IsPrefixLen result room.new }
{
    if slot == 0 {
        return put_bytes(room, at, b" -");
    }
    put_values(room, at, b' ', &[i32::from(slot)])
}

// An orbit record.
pub(crate) fn put_orbit(room: &mut [u8], at: usize, o: &Orbit) -> usize
    ensures { IsPrefixLen result room.new }
{
    if o.slot == 0 {
        return put_bytes(room, at, b" -");
    }
    let values = [
        i32::from(o.slot),
        i32::from(o.iodn),
        i32::from(o.corr),
        i32::from(o.radial),
        i32::from(o.along),
        i32::from(o.cross),
    ];
    let a = put_values(room, at, b' ', &values);
    put_index(room, a, b'/', o.ura)
}

// A clock record, with or without its slot.
pub(crate) fn put_clock(room: &mut [u8], at: usize, k: &Clock, slotted: bool) -> usize
    ensures { IsPrefixLen result room.new }
{
    let values = [i32::from(k.slot), i32::from(k.corr), i32::from(k.c0)];
    if !slotted {
        return put_values(room, at, b' ', &values[1..]);
    }
    if k.slot == 0 {
        return put_bytes(room, at, b" -");
    }
    put_values(room, at, b' ', &values)
}

// The accuracy index of a URA code.
pub(crate) fn put_code(room: &mut [u8], at: usize, code: u8) -> usize
    ensures { IsPrefixLen result room.new }
{
    put_index(room, at, b' ', ura_of(code))
}

// A bias, after a stroke.
fn put_bias(room: &mut [u8], at: usize, b: &Bias) -> usize
    ensures { IsPrefixLen result room.new }
{
    let values = [i32::from(b.mode), i32::from(b.value)];
    put_values(room, at, b'/', &values)
}

// A satellite, with its biases, which are the first of some.
pub(crate) fn put_sat(room: &mut [u8], at: usize, r: &BiasSat, biases: &[Bias]) -> usize
    ensures { IsPrefixLen result room.new }
{
    let mut n = put_slot(room, at, r.slot);
    for b in biases.iter().take(usize::from(r.count)) {
        n = put_bias(room, n, b);
    }
    n
}
