// Writing to standard output.
use console::errors::put_error;
use console::put::{put_byte, put_bytes, put_text};
use console::say::complain;
use row::Row;
use slots::System;
use std::io::Error;
use ura::Ura;

// Writes bytes.
pub(crate) fn say(rt: &HostRuntime, text: &[u8]) {
    let _ = rt.write_all(text);
}

// What the system says of a file that cannot be opened, on standard error.
pub(crate) fn say_failed(rt: &HostRuntime, name: &[u8], e: Error) {
    let mut room = io::buffer();
    let a = put_bytes(&mut room, 0, name);
    let b = put_bytes(&mut room, a, b": ");
    let c = put_error(&mut room, b, e);
    let n = put_byte(&mut room, c, b'\n');
    complain(rt, &room[..n]);
}

// Writes a number.
pub(crate) fn say_number(rt: &HostRuntime, n: u64) {
    let mut digits = [0u8; 20];
    let k = io::decimal(n, &mut digits);
    say(rt, &digits[..k]);
}

// Writes a text with the next of some numbers for each mark # in it.
pub(crate) fn say_text(rt: &HostRuntime, text: &[u8], numbers: &[u64]) {
    let mut room = io::buffer();
    let n = put_text(&mut room, 0, text, numbers);
    say(rt, &room[..n]);
}

// Writes a number that may be negative.
fn say_signed(rt: &HostRuntime, x: i32) {
    if x < 0 {
        say(rt, b"-");
    }
    say_number(rt, u64::from(x.unsigned_abs()));
}

// Writes an accuracy index.
pub(crate) fn say_ura(rt: &HostRuntime, u: Ura) {
    match u {
        Ura::Unknown => say(rt, b"unknown"),
        Ura::Quarters(q) => say_number(rt, u64::from(q)),
        Ura::Above => say(rt, b"above"),
    }
}

// Writes the name of a system.
fn say_system(rt: &HostRuntime, s: System) {
    match s {
        System::Reserved => say(rt, b"reserved"),
        System::BeiDou => say(rt, b"BeiDou"),
        System::Gps => say(rt, b"GPS"),
        System::Galileo => say(rt, b"Galileo"),
        System::Glonass => say(rt, b"GLONASS"),
    }
}

// Writes a name and a value.
fn say_value(rt: &HostRuntime, name: &[u8], value: i32) {
    say(rt, name);
    say_signed(rt, value);
}

// Writes what a row says of its satellite.
fn say_satellite(rt: &HostRuntime, row: Row) {
    let first = [u64::from(row.slot.0)];
    let others = [
        u64::from(row.number),
        u64::from(row.iodn),
        u64::from(row.corr),
    ];
    say_text(rt, b"\n    slot #, ", &first);
    say_system(rt, row.system);
    say_text(rt, b" #, IODN #, corr #", &others);
}

// Writes the corrections of a row.
fn say_corrections(rt: &HostRuntime, row: Row) {
    say_value(rt, b", radial ", row.radial);
    say_value(rt, b", along ", row.along);
    say_value(rt, b", cross ", row.cross);
    say_value(rt, b", clock ", row.clock);
}

// Writes a row, on a new line.
pub(crate) fn say_row(rt: &HostRuntime, row: Row) {
    say_satellite(rt, row);
    say_corrections(rt, row);
    say(rt, b", URA ");
    say_ura(rt, row.ura);
}
