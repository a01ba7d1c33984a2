// The parts of a message: in words its epoch, IOD SSR, IODP, and sub-type or first place, and how many entries it has; then its entries.
ghost use Rattle.io.specs.Counts.{IsPrefixLen};

use crate::entry::{put_clock, put_code, put_orbit, put_sat, put_slot};
use biases::BiasPart;
use console::put::put_text;
use contents::parts::{ClockPart, MaskPart, OrbitPart};
use ura_codes::CodePart;

// The mask of a type 1: the slots whose bits are set.
pub(crate) fn put_mask(room: &mut [u8], at: usize, m: &MaskPart) -> usize
    ensures { IsPrefixLen result room.new }
{
    let numbers = [u64::from(m.epoch), u64::from(m.ssr), u64::from(m.iodp)];
    let mut n = put_text(room, at, b" epoch # ssr # iodp # slots", &numbers);
    for i in 0..255u8 {
        if bits::bit(&m.bytes, usize::from(i)) == 1 {
            n = put_slot(room, n, u16::from(i) + 1);
        }
    }
    n
}

// The orbit records of a part, behind its text.
pub(crate) fn put_orbits(room: &mut [u8], at: usize, text: &[u8], p: &OrbitPart) -> usize
    ensures { IsPrefixLen result room.new }
{
    let numbers = [u64::from(p.epoch), u64::from(p.ssr)];
    let mut n = put_text(room, at, text, &numbers);
    for o in p.orbits.iter().take(usize::from(p.count)) {
        n = put_orbit(room, n, o);
    }
    n
}

// The satellites of a type 3, each with the biases that follow those before it.
pub(crate) fn put_biases(room: &mut [u8], at: usize, b: &BiasPart) -> usize
    ensures { IsPrefixLen result room.new }
{
    let numbers = [u64::from(b.epoch), u64::from(b.ssr)];
    let mut n = put_text(room, at, b" epoch # ssr # biases", &numbers);
    let mut used = 0;
    for r in b.sats.iter().take(usize::from(b.count)) {
        n = put_sat(room, n, r, &b.biases[used..]);
        used = (used + usize::from(r.count)).min(25);
    }
    n
}

// The clock records of a part, behind its text, with or without their slots.
pub(crate) fn put_clocks(
    room: &mut [u8],
    at: usize,
    text: &[u8],
    p: &ClockPart,
    slotted: bool,
) -> usize
    ensures { IsPrefixLen result room.new }
{
    let mut n = put_clock_head(room, at, text, p);
    for k in p.clocks.iter().take(usize::from(p.count)) {
        n = put_clock(room, n, k, slotted);
    }
    n
}

// What stands before the clock records of a part; types without slots have two numbers more.
fn put_clock_head(room: &mut [u8], at: usize, text: &[u8], p: &ClockPart) -> usize
    ensures { IsPrefixLen result room.new }
{
    let numbers = [
        u64::from(p.epoch),
        u64::from(p.ssr),
        u64::from(p.iodp),
        u64::from(p.start),
    ];
    put_text(room, at, text, &numbers)
}

// The accuracy indices of a type 5.
pub(crate) fn put_codes(room: &mut [u8], at: usize, p: &CodePart) -> usize
    ensures { IsPrefixLen result room.new }
{
    let numbers = [
        u64::from(p.epoch),
        u64::from(p.ssr),
        u64::from(p.iodp),
        u64::from(p.sub),
    ];
    let mut n = put_text(room, at, b" epoch # ssr # iodp # sub # uras", &numbers);
    for &code in &p.codes {
        n = put_code(room, n, code);
    }
    n
}
