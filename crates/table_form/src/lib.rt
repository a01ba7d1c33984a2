// The form of a table of four ledgers, in bytes that the caller lends: 02, CR 14, and docs/FORM.md.
#![tactic(auto)]

ghost use Rattle.std.specs.Prelude.{◌≡◌};
ghost use Rattle.table_form.specs.Table.{is_right, is_table, room_with, free_room, room_of, ledger_for};

use frame::is_prn;
use held_mask::LEDGER_SIZE;
use lent::byte;

// The rooms of a table.
pub const ROOMS: usize = 4;

// The bytes of a room: those of a ledger.
pub const ROOM_SIZE: usize = LEDGER_SIZE;

// The bytes of a table. Zero bytes are the empty table.
pub const TABLE_SIZE: usize = ROOM_SIZE * ROOMS;

// Whether a room's PRN byte is 0, or one of the ten and none of three others.
fn is_right(p: u8, x: u8, y: u8, z: u8) -> bool
    ensures { result ≡ is_right p x y z }
{
    (p == 0) | (is_prn(p) & (p != x) & (p != y) & (p != z))
}

// Whether bytes are a table.
pub fn is_table(t: &[u8]) -> bool
    ensures { result ≡ is_table t.now }
{
    if t.len() != TABLE_SIZE {
        return false;
    }
    let a = byte(t, 0);
    let b = byte(t, ROOM_SIZE);
    let c = byte(t, ROOM_SIZE * 2);
    let d = byte(t, ROOM_SIZE * 3);
    is_right(a, b, c, d) & is_right(b, a, c, d) & is_right(c, a, b, d) & is_right(d, a, b, c)
}

// The first room with this PRN byte; 4 if there is none.
fn room_with(t: &[u8], p: u8) -> usize
    ensures { result ≡ room_with t.now p }
{
    for i in 0..ROOMS {
        if byte(t, ROOM_SIZE * i) == p {
            return i;
        }
    }
    ROOMS
}

// The first room that is free; 4 if all four are open.
pub fn free_room(t: &[u8]) -> usize
    ensures { result ≡ free_room t.now }
{
    room_with(t, 0)
}

// The room that is open for a PRN of the ten; 4 if there is none.
pub fn room_of(t: &[u8], prn: u8) -> usize
    ensures { result ≡ room_of t.now prn }
{
    if !is_prn(prn) {
        return ROOMS;
    }
    room_with(t, prn)
}

// The ledger of a PRN in a table; no bytes where there is none.
pub fn ledger_for(t: &[u8], prn: u8) -> &[u8]
    ensures { result.now ≡ ledger_for t.now prn }
{
    if !is_table(t) {
        return &[];
    }
    let a = ROOM_SIZE * room_of(t, prn);
    if a == TABLE_SIZE {
        return &[];
    }
    let e = a + ROOM_SIZE;
    &t[a..e]
}
