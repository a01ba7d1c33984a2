// Reading a clock part, where its message begins at any bit.
#![tactic(auto)]

ghost use Rattle.std.specs.Prelude.{◌≡◌, ◌+◌, ◌<◌, ◌≤◌};
ghost use Rattle.contents.specs.Parts.{clocks_at, clocks_in, contents_at};

use contents::parts::{ClockPart, no_clocks};
use contents::read::layout_at;
use layout::Layout;
use records::clock::{Clock, blank_clock, clock_at};

// 23 clock records in a row, those past the count blank.
fn read_clocks(s: &[u8], at: u32, slotted: bool, count: u8) -> [Clock; 23]
    requires { at < 100000 }
    ensures { result ≡ clocks_at slotted s.now at count }
{
    let each: u32 = if slotted { 27 } else { 18 };
    let mut out = [blank_clock(); 23];
    for i in 0..(count as u32).min(23) {
        out[i as usize] = clock_at(s, at + each * i, slotted);
    }
    out
}

// The clock part of a message that begins at bit at. Its records are blank where it has none.
fn clocks_in(s: &[u8], at: u8, l: Layout) -> ClockPart
    requires { (l.iodp ≤ 4) × (l.start ≤ 9) }
    ensures { result ≡ clocks_in s.now at l }
{
    if l.clocks == 0 {
        return no_clocks();
    }
    let from = at as u32 + l.head as u32;
    let records = from + (23 + l.iodp as u32 + l.start as u32);
    let clocks = read_clocks(s, records, l.slotted, l.clocks);
    let a = from as usize;
    let p = l.iodp as usize;
    let w = l.start as usize;
    let epoch = bits::get32(s, a, 17);
    let ssr = bits::get8(s, a + 17 + 4, 2);
    let iodp = bits::get8(s, a + 17 + 4 + 2, p);
    let start = bits::get16(s, a + 17 + 4 + 2 + p, w);
    ClockPart {
        epoch,
        ssr,
        iodp,
        start,
        count: l.clocks,
        clocks,
    }
}

// The clock part alone of the message that begins at bit at.
pub fn clocks_of(s: &[u8], at: u8) -> ClockPart
    ensures { result ≡ (contents_at s.now at).clock }
{
    clocks_in(s, at, layout_at(s, at))
}
