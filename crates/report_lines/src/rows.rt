// The two tables of the report: the rows, and the satellites of the mask that have none.
ghost use Rattle.io.specs.Counts.{IsPrefixLen};

use absent::Why;
use console::put::{cursor_in, put_byte, put_bytes, put_number};
use row::{Row, slot_row};
use row_lines::{put_next, put_row, put_satellite, put_words};
use slots::Slot;

// The column of the PRN, and a separator, where there is one.
fn put_prn(room: &mut [u8], at: usize, by: u8, prn: Option<u8>) -> usize
    ensures { IsPrefixLen result room.new }
{
    let Some(prn) = prn else {
        return cursor_in(room, at);
    };
    let a = put_number(room, at, u64::from(prn));
    put_byte(room, a, by)
}

// The line of a row, with the epochs of its orbit and its clock.
fn put_line(room: &mut [u8], at: usize, by: u8, r: Row, orbit: u32, clock: u32) -> usize
    ensures { IsPrefixLen result room.new }
{
    let a = put_row(room, at, by, r);
    let b = put_next(room, a, by, u64::from(orbit));
    let c = put_next(room, b, by, u64::from(clock));
    put_byte(room, c, b'\n')
}

// The line of a slot's row, if it has one.
fn put_slot_row(
    room: &mut [u8],
    at: usize,
    by: u8,
    prn: Option<u8>,
    ledger: &[u8],
    issue: u16,
    slot: u8,
) -> usize
    ensures { IsPrefixLen result room.new }
{
    let Ok(r) = slot_row(ledger, Slot(slot), issue) else {
        return cursor_in(room, at);
    };
    let orbit = held_orbits::get_orbit(ledger, Slot(slot));
    let clock = held_clocks::get_clock(ledger, Slot(slot));
    let a = put_prn(room, at, by, prn);
    put_line(room, a, by, r, orbit.epoch, clock.epoch)
}

// The table's head.
pub fn put_head(room: &mut [u8], at: usize, by: u8) -> usize
    ensures { IsPrefixLen result room.new }
{
    let a = row_lines::put_head(room, at, by);
    let b = put_words(room, a, by, b" orbit_s clock_s");
    put_byte(room, b, b'\n')
}

// The lines of the rows, in rising slot order; each begins with the PRN, where there is one.
pub fn put_lines(
    room: &mut [u8],
    at: usize,
    by: u8,
    prn: Option<u8>,
    ledger: &[u8],
    issues: &[u16; 255],
) -> usize
    ensures { IsPrefixLen result room.new }
{
    let mut n = cursor_in(room, at);
    for i in 0..255u8 {
        n = put_slot_row(room, n, by, prn, ledger, issues[usize::from(i)], i + 1);
    }
    n
}

// The table of the rows, with blanks.
pub fn put_table(room: &mut [u8], at: usize, ledger: &[u8], issues: &[u16; 255]) -> usize
    ensures { IsPrefixLen result room.new }
{
    let a = put_head(room, at, b' ');
    put_lines(room, a, b' ', None, ledger, issues)
}

// Whether a satellite of the mask in force has no row.
fn is_absent(ledger: &[u8], issue: u16, slot: u8) -> bool {
    held_mask::has_mask(ledger)
        && mask_bits::has_bit(ledger, Slot(slot))
        && slot_row(ledger, Slot(slot), issue).is_err()
}

// How many bits the mask in force has for reserved slots: 175 to 255.
pub fn reserved_count(ledger: &[u8]) -> u16 {
    let mut n: u16 = 0;
    for i in 174..255u8 {
        if mask_bits::has_bit(ledger, Slot(i + 1)) {
            n += 1;
        }
    }
    n
}

// How many satellites of the mask in force have no row.
pub fn absent_count(ledger: &[u8], issues: &[u16; 255]) -> u16 {
    let mut n: u16 = 0;
    for i in 0..174u8 {
        if is_absent(ledger, issues[usize::from(i)], i + 1) {
            n += 1;
        }
    }
    n
}

// Why there is no row, in a word.
fn why_text(why: Why) -> &'static [u8] {
    match why {
        Why::Listed => b"listed",
        Why::Orbit => b"orbit",
        Why::Clock => b"clock",
        Why::Ssr => b"ssr",
        Why::Corr => b"corr",
        Why::Ura => b"ura",
        Why::Unusable => b"unusable",
        Why::Issue => b"issue",
    }
}

// The line of a satellite, if it is absent.
fn put_slot_absent(room: &mut [u8], at: usize, ledger: &[u8], issue: u16, slot: u8) -> usize
    ensures { IsPrefixLen result room.new }
{
    if !is_absent(ledger, issue, slot) {
        return cursor_in(room, at);
    }
    let why = absent::why_absent(ledger, Slot(slot), issue);
    let a = put_satellite(room, at, b' ', Slot(slot));
    let b = put_byte(room, a, b' ');
    let c = put_bytes(room, b, why_text(why));
    put_byte(room, c, b'\n')
}

// The table of the satellites of the mask in force that have no row, in rising slot order.
pub fn put_absent(room: &mut [u8], at: usize, ledger: &[u8], issues: &[u16; 255]) -> usize
    ensures { IsPrefixLen result room.new }
{
    let mut n = put_bytes(room, at, b"slot sat why\n");
    for i in 0..174u8 {
        n = put_slot_absent(room, n, ledger, issues[usize::from(i)], i + 1);
    }
    n
}
