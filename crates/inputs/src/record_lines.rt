// Records, one to a line: frames and subframes in hexadecimal digits. Blank lines and what stands behind a # say nothing.
ghost use Rattle.std.specs.Prelude.{◌≡◌, ◌≤◌, length};

use crate::ends::is_over;
use crate::hex::is_hex;
use crate::satellites::beidou_of;
use console::words::{Word, next_word, text_start};

// What is wrong with a line: it is no record of the kinds below; it has no BeiDou satellite, no even number of hexadecimal digits, or something
// behind them.
#[derive(Clone, Copy, PartialEq, Eq)]
pub enum Fault {
    Kind,
    Satellite,
    Digits,
    End,
}

// What a line is: nothing; a frame; a subframe 2 of B-CNAV1 or a subframe of D1, with the BeiDou satellite that it names; or no record.
#[derive(Clone, Copy, PartialEq, Eq)]
pub enum Kind {
    Nothing,
    Frame,
    Cnav1(u8),
    D1(u8),
    Wrong(Fault),
}

// What a line is, and a word of it: its digits, or the word that is wrong.
#[derive(Clone, Copy)]
pub struct Record {
    pub kind: Kind,
    pub from: usize,
    pub to: usize,
}

// A record of a kind with a word of its line.
fn with_word(kind: Kind, w: Word) -> Record
    ensures { (result.from ≡ w.from) × (result.to ≡ w.to) }
{
    Record {
        kind,
        from: w.from,
        to: w.to,
    }
}

// A record of a kind, whose digits are the next word of a line from a position on.
fn with_digits(s: &[u8], at: usize, kind: Kind) -> Record
    ensures { (result.from ≤ result.to) × (result.to ≤ length s.now) }
{
    let w = next_word(s, at);
    let from = w.from;
    let to = w.to;
    if !is_hex(&s[from..to]) {
        return with_word(Kind::Wrong(Fault::Digits), w);
    }
    if !is_over(s, to) {
        return with_word(Kind::Wrong(Fault::End), next_word(s, to));
    }
    with_word(kind, w)
}

// A record of the kind that a satellite makes, which is the next word of a line from a position on.
fn with_satellite<F: Fn(u8) -> Kind>(s: &[u8], at: usize, kind: F) -> Record
    requires { F.IsAlwaysCallable kind }
    ensures { (result.from ≤ result.to) × (result.to ≤ length s.now) }
{
    let w = next_word(s, at);
    let from = w.from;
    let to = w.to;
    match beidou_of(&s[from..to]) {
        Some(prn) => with_digits(s, to, kind(prn)),
        None => with_word(Kind::Wrong(Fault::Satellite), w),
    }
}

// A line that says nothing.
fn nothing() -> Record
    ensures { (result.from ≤ result.to) × (result.to ≤ 0) }
{
    with_word(Kind::Nothing, Word { from: 0, to: 0 })
}

// A line with a satellite and the subframe 2 heard from it.
pub fn heard_of(s: &[u8], number: u64) -> Record
    ensures { (result.from ≤ result.to) × (result.to ≤ length s.now) }
{
    let at = text_start(s, number);
    if is_over(s, at) {
        return nothing();
    }
    with_satellite(s, at, |prn| Kind::Cnav1(prn))
}

// A line of a mixed log: a kind, a satellite but for a frame, and digits.
pub fn record_of(s: &[u8], number: u64) -> Record
    ensures { (result.from ≤ result.to) × (result.to ≤ length s.now) }
{
    let at = text_start(s, number);
    if is_over(s, at) {
        return nothing();
    }
    let w = next_word(s, at);
    let from = w.from;
    let to = w.to;
    let kind = &s[from..to];
    if kind == b"B2B".as_slice() {
        return with_digits(s, to, Kind::Frame);
    }
    if kind == b"CNAV1".as_slice() {
        return with_satellite(s, to, |prn| Kind::Cnav1(prn));
    }
    if kind == b"D1".as_slice() {
        return with_satellite(s, to, |prn| Kind::D1(prn));
    }
    with_word(Kind::Wrong(Fault::Kind), w)
}
