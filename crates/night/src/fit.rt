// Whether a night is fit to be signed for: each limit that does not hold gives a line.
ghost use Rattle.std.specs.Prelude.{◌≤◌};
ghost use Rattle.io.specs.Counts.{IsPrefixLen};

use crate::options::Options;
use console::put::{cursor_in, put_bytes, put_text};
use ledger_log::epochs::Epochs;
use row::slot_row;
use slots::Slot;

// What the limits are held against: how many rows, frames refused and frames in all, the age of the oldest clock of a row, the longest gap. A PRN
// is named by each line, where there is one.
#[derive(Clone, Copy)]
pub(crate) struct Found {
    pub prn: Option<u8>,
    pub rows: u32,
    pub refused: u64,
    pub all: u64,
    pub age: u32,
    pub gap: u32,
}

// Seconds from one second of the day to the next that another is.
fn seconds_from(a: u32, b: u32) -> u32 {
    (b % 86400 + 86400 - a % 86400) % 86400
}

// The age of the clock of a slot's row at the last epoch, if the slot has a row.
fn age_of(ledger: &[u8], issue: u16, slot: u8, last: u32) -> Option<u32> {
    let Ok(_) = slot_row(ledger, Slot(slot), issue) else {
        return None;
    };
    let clock = held_clocks::get_clock(ledger, Slot(slot));
    Some(seconds_from(clock.epoch, last))
}

// The age of the oldest clock of a row; 0 if there is no row.
pub(crate) fn oldest(ledger: &[u8], issues: &[u16; 255], e: Epochs) -> u32 {
    let mut most = 0;
    for i in 0..255u8 {
        if let Some(age) = age_of(ledger, issues[usize::from(i)], i + 1, e.last) {
            most = age.max(most);
        }
    }
    most
}

// The smaller of a count and more than any night has.
fn counted(n: u64) -> u64
    ensures { result ≤ 10000000000000000 }
{
    n.min(10000000000000000)
}

// Whether there are fewer rows than asked for.
fn is_few(f: Found, o: Options) -> bool {
    f.rows < o.rows
}

// Whether more of the frames are refused than a percentage: refused times 100 above percent times all.
fn is_above(f: Found, percent: u32) -> bool {
    let all = counted(f.all);
    let refused = counted(f.refused) * 100;
    if all == 0 {
        return false;
    }
    let whole = refused / all;
    let rest = refused % all;
    let limit = u64::from(percent);
    limit < whole || limit == whole && rest > 0
}

// The percentage that is allowed, where more of the frames are refused.
fn refused_for(f: Found, o: Options) -> Option<u32> {
    o.percent.filter(|&most| is_above(f, most))
}

// The age that is allowed, where a row's clock is older.
fn old_for(f: Found, o: Options) -> Option<u32> {
    o.age.filter(|&most| f.age > most)
}

// The gap that is allowed, where two neighbouring epochs lie further apart.
fn torn_for(f: Found, o: Options) -> Option<u32> {
    o.gap.filter(|&most| f.gap > most)
}

// Whether a limit does not hold.
pub(crate) fn is_unfit(f: Found, o: Options) -> bool {
    is_few(f, o)
        || refused_for(f, o).is_some()
        || old_for(f, o).is_some()
        || torn_for(f, o).is_some()
}

// How a line begins.
fn put_start(room: &mut [u8], at: usize, prn: Option<u8>) -> usize
    ensures { IsPrefixLen result room.new }
{
    match prn {
        Some(prn) => put_text(room, at, b"prn # unfit", &[u64::from(prn)]),
        None => put_bytes(room, at, b"unfit"),
    }
}

// A line: what was found, and the limit.
fn put_limit(room: &mut [u8], at: usize, prn: Option<u8>, text: &[u8], numbers: &[u64]) -> usize
    ensures { IsPrefixLen result room.new }
{
    let a = put_start(room, at, prn);
    put_text(room, a, text, numbers)
}

// The line of the rows.
fn put_few(room: &mut [u8], at: usize, f: Found, o: Options) -> usize
    ensures { IsPrefixLen result room.new }
{
    if !is_few(f, o) {
        return cursor_in(room, at);
    }
    let numbers = [u64::from(f.rows), u64::from(o.rows)];
    put_limit(room, at, f.prn, b" rows # below #\n", &numbers)
}

// The line of the frames refused.
fn put_refused(room: &mut [u8], at: usize, f: Found, o: Options) -> usize
    ensures { IsPrefixLen result room.new }
{
    let Some(most) = refused_for(f, o) else {
        return cursor_in(room, at);
    };
    let numbers = [f.refused, f.all, u64::from(most)];
    let text = b" refused # of # above # percent\n";
    put_limit(room, at, f.prn, text, &numbers)
}

// The line of the oldest clock.
fn put_old(room: &mut [u8], at: usize, f: Found, o: Options) -> usize
    ensures { IsPrefixLen result room.new }
{
    let Some(most) = old_for(f, o) else {
        return cursor_in(room, at);
    };
    let numbers = [u64::from(f.age), u64::from(most)];
    put_limit(room, at, f.prn, b" age # above #\n", &numbers)
}

// The line of the longest gap.
fn put_torn(room: &mut [u8], at: usize, f: Found, o: Options) -> usize
    ensures { IsPrefixLen result room.new }
{
    let Some(most) = torn_for(f, o) else {
        return cursor_in(room, at);
    };
    let numbers = [u64::from(f.gap), u64::from(most)];
    put_limit(room, at, f.prn, b" gap # above #\n", &numbers)
}

// A line for each limit that does not hold.
pub(crate) fn put_unfit(room: &mut [u8], at: usize, f: Found, o: Options) -> usize
    ensures { IsPrefixLen result room.new }
{
    let a = put_few(room, at, f, o);
    let b = put_refused(room, a, f, o);
    let c = put_old(room, b, f, o);
    put_torn(room, c, f, o)
}
