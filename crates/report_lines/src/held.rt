// What is said of a ledger: the mask in force, the epochs of the frames taken, the list, and who is absent from it.
ghost use Rattle.io.specs.Counts.{IsPrefixLen};

use crate::counts::put_count;
use console::put::{cursor_in, put_bytes, put_text};
use ledger_log::epochs::Epochs;

// The line of the reserved bits of the mask, if any is set.
fn put_reserved(room: &mut [u8], at: usize, reserved: u16) -> usize
    ensures { IsPrefixLen result room.new }
{
    if reserved == 0 {
        return cursor_in(room, at);
    }
    put_count(room, at, b"reserved", u64::from(reserved))
}

// The line of a mask.
fn put_mask_line(room: &mut [u8], at: usize, ssr: u8, iodp: u8, satellites: u16) -> usize
    ensures { IsPrefixLen result room.new }
{
    let numbers = [u64::from(ssr), u64::from(iodp), u64::from(satellites)];
    put_text(room, at, b"mask ssr # iodp # satellites #\n", &numbers)
}

// The line of the mask in force, and how many reserved bits it has.
pub fn put_mask(room: &mut [u8], at: usize, ledger: &[u8]) -> usize
    ensures { IsPrefixLen result room.new }
{
    if !held_mask::has_mask(ledger) {
        return put_bytes(room, at, b"mask none\n");
    }
    let ssr = held_mask::mask_ssr(ledger);
    let iodp = held_mask::mask_iodp(ledger);
    let reserved = crate::rows::reserved_count(ledger);
    let satellites = mask_counts::set_count(ledger).saturating_sub(reserved);
    let a = put_mask_line(room, at, ssr, iodp, satellites);
    put_reserved(room, a, reserved)
}

// The line of the epochs of the frames taken.
pub fn put_epochs(room: &mut [u8], at: usize, e: Epochs) -> usize
    ensures { IsPrefixLen result room.new }
{
    if !e.has {
        return put_bytes(room, at, b"epochs none\n");
    }
    let numbers = [
        u64::from(e.first),
        u64::from(e.last),
        u64::from(e.gap),
        e.since,
    ];
    put_text(
        room,
        at,
        b"epochs first # last # longest-gap # frames-since #\n",
        &numbers,
    )
}

// The satellites of the mask in force that have no row: how many, and a table of them unless there is none.
fn put_absent(room: &mut [u8], at: usize, ledger: &[u8], issues: &[u16; 255]) -> usize
    ensures { IsPrefixLen result room.new }
{
    let k = crate::rows::absent_count(ledger, issues);
    let n = put_count(room, at, b"absent", u64::from(k));
    if k == 0 {
        return n;
    }
    crate::rows::put_absent(room, n, ledger, issues)
}

// The list, and the satellites of the mask that are not in it.
pub fn put_list(room: &mut [u8], at: usize, ledger: &[u8], issues: &[u16; 255], rows: u32) -> usize
    ensures { IsPrefixLen result room.new }
{
    let a = put_count(room, at, b"rows", u64::from(rows));
    let b = crate::rows::put_table(room, a, ledger, issues);
    put_absent(room, b, ledger, issues)
}
