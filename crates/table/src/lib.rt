// A table of four ledgers, each opened for one PRN: opened, closed, and frames taken by the ledger of their PRN. 02, CR 14.
#![tactic(auto)]

ghost use Rattle.std.specs.Prelude.{◌≡◌, ◌<◌, length, replicate};
ghost use Rattle.verdict.specs.Verdict.{says, refused_by};
ghost use Rattle.in_force.specs.Bytes.{fresh, take_says, take_bytes};
ghost use Rattle.table_form.specs.Table.{table_size, part, put_part};
ghost use Rattle.table.specs.Calls.{opening_refusal, opened, closing_refusal, closed, taking_says, taking_bytes};

use frame::{is_prn, prn_of, shell_for};
use ledger::open::make_fresh;
use ledger::take::take_in;
use table_form::{ROOM_SIZE, ROOMS, free_room, is_table, room_of};
use verdict::{Refusal, Verdict};

// Room i becomes a fresh ledger for the PRN.
fn open_room(t: &mut [u8], i: usize, prn: u8)
    requires { (length t.old ≡ table_size) × (i < 4) }
    ensures { t.new ≡ put_part t.old i (fresh (part t.old i) prn) }
{
    let a = ROOM_SIZE * i;
    let e = a + ROOM_SIZE;
    make_fresh(&mut t[a..e], prn);
}

// Every byte of room i is made 0.
fn clear_room(t: &mut [u8], i: usize)
    requires { (length t.old ≡ table_size) × (i < 4) }
    ensures { t.new ≡ put_part t.old i (replicate (length (part t.old i)) 0) }
{
    let a = ROOM_SIZE * i;
    let e = a + ROOM_SIZE;
    lent::clear(&mut t[a..e]);
}

// The ledger of room i takes a frame, or refuses it.
fn take_room(t: &mut [u8], i: usize, frame: &[u8]) -> Verdict
    requires { (length t.old ≡ table_size) × (i < 4) }
    ensures verdict { says result ≡ take_says (part t.old i) frame.now }
    ensures bytes { t.new ≡ put_part t.old i (take_bytes (part t.old i) frame.now) }
{
    let a = ROOM_SIZE * i;
    let e = a + ROOM_SIZE;
    take_in(&mut t[a..e], frame)
}

// A ledger is opened for a PRN in the first room that is free: refusals 39, 4, 28, 29, in this order.
pub fn open(t: &mut [u8], prn: u8) -> Verdict
    ensures verdict { says result ≡ refused_by (opening_refusal t.old prn) }
    ensures bytes { t.new ≡ opened t.old prn }
{
    if !is_table(t) {
        return Err(Refusal::Number(39));
    }
    if !is_prn(prn) {
        return Err(Refusal::Number(4));
    }
    if room_of(t, prn) < ROOMS {
        return Err(Refusal::Number(28));
    }
    let free = free_room(t);
    if ROOMS <= free {
        return Err(Refusal::Number(29));
    }
    open_room(t, free, prn);
    Ok(())
}

// The ledger of a PRN is closed, and its room is free: refusals 39, 30, in this order.
pub fn close(t: &mut [u8], prn: u8) -> Verdict
    ensures verdict { says result ≡ refused_by (closing_refusal t.old prn) }
    ensures bytes { t.new ≡ closed t.old prn }
{
    if !is_table(t) {
        return Err(Refusal::Number(39));
    }
    let i = room_of(t, prn);
    if ROOMS <= i {
        return Err(Refusal::Number(30));
    }
    clear_room(t, i);
    Ok(())
}

// A frame goes to the ledger of its PRN: refusals 39, then that ledger's; where none is open for the PRN, 1, 3, 4.
pub fn take(t: &mut [u8], frame: &[u8]) -> Verdict
    ensures verdict { says result ≡ taking_says t.old frame.now }
    ensures bytes { t.new ≡ taking_bytes t.old frame.now }
{
    if !is_table(t) {
        return Err(Refusal::Number(39));
    }
    let i = room_of(t, prn_of(frame));
    if ROOMS <= i {
        return shell_for(frame, 0);
    }
    take_room(t, i, frame)
}
