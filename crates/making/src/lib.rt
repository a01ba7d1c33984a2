// Frames made from messages, and checked against them: 02, CR 9.
#![tactic(auto)]

ghost use Rattle.std.specs.Prelude.{◌≡◌, ◌<◌, length};
ghost use Rattle.bits.specs.Table.{table};
ghost use Rattle.verdict.specs.Verdict.{says, refused_by};
ghost use Rattle.making.specs.Make.{message_symbols, wrong_length, make_refusal, Made, Leaves};
ghost use Rattle.making.specs.Check.{keeps, check_says};
ghost use Rattle.making.specs.Units.{unit_of, frame_byte};

use std::array;
use verdict::{Refusal, Verdict};

// The 81 symbols of a message.
fn symbols_of(message: &[u8]) -> [u8; 81]
    ensures { result ≡ message_symbols message.now }
{
    array::from_fn(|k| bits::get8(message, 6 * k, 6))
}

// Unit k of a frame: the PRN, the flags, a symbol of the message or of its parity.
fn unit_of(prn: u8, flags: u8, m: &[u8; 81], v: &[u8; 81], k: usize) -> u8
    requires { k < 164 }
    ensures { result ≡ unit_of prn flags m.now v.now k }
{
    match k {
        0 => prn,
        1 => flags,
        2..83 => m[k - 2],
        _ => v[k - 83],
    }
}

// The units of a frame after its sync.
fn units_of(prn: u8, flags: u8, m: &[u8; 81], v: &[u8; 81]) -> [u8; 164]
    ensures { result ≡ table (unit_of prn flags m.now v.now) 164 }
{
    array::from_fn(|k| unit_of(prn, flags, m, v, k))
}

// Byte j of a frame: of its sync, or eight bits of its units.
fn byte_of(u: &[u8; 164], j: usize) -> u8
    requires { j < 125 }
    ensures { result ≡ frame_byte u.now j }
{
    if j == 0 {
        return 0xEB;
    }
    if j == 1 {
        return 0x90;
    }
    let at = 4 * (j - 2);
    let k = at / 3;
    let h = 4 - 2 * (at % 3);
    let w = u32::from(u[k]) * 64 + u32::from(u[k + 1]);
    ((w >> h) % 256) as u8
}

// A frame's bytes are put into a room of 125.
fn put_bytes(room: &mut [u8], u: &[u8; 164])
    requires { length room.old ≡ 125 }
    ensures { room.new ≡ table (frame_byte u.now) 125 }
{
    for j in 0..125usize {
        room[j] = byte_of(u, j);
    }
}

// The frame of a message is put into a room of 125 bytes.
fn put_frame(message: &[u8], prn: u8, flags: u8, room: &mut [u8])
    requires { (length room.old ≡ 125) × (prn < 64) × (flags < 64) }
    ensures { Made message.now prn flags room.new }
{
    let m = symbols_of(message);
    let v = parity_making::parity_of(m);
    let u = units_of(prn, flags, &m, &v);
    put_bytes(room, &u);
}

// Whether a message or a frame is of wrong length.
fn wrong_length(message: usize, frame: usize) -> bool
    ensures { result ≡ wrong_length message frame }
{
    message != 61 || frame != 125
}

// A message's frame is made in a lent room: refusals 1, 2, 4, 16, lowest first. On a refusal the room is as it was.
pub fn make(message: &[u8], prn: u8, flags: u8, room: &mut [u8]) -> Verdict
    ensures verdict { says result ≡ refused_by (make_refusal message.now prn flags room.old) }
    ensures bytes { Leaves message.now prn flags room.old room.new }
{
    if wrong_length(message.len(), room.len()) {
        return Err(Refusal::Number(1));
    }
    if bits::get8(message, 486, 2) != 0 {
        return Err(Refusal::Number(2));
    }
    if !frame::is_prn(prn) {
        return Err(Refusal::Number(4));
    }
    if flags > 63 {
        return Err(Refusal::Number(16));
    }
    put_frame(message, prn, flags, room);
    Ok(())
}

// Whether a frame keeps the message's symbols.
fn keeps_symbols(message: &[u8], frame: &[u8]) -> bool
    ensures { result ≡ keeps message.now frame.now 81 }
{
    for n in (0..81usize).rev() {
        if bits::get8(message, 6 * n, 6) != bits::get8(frame, 28 + 6 * n, 6) {
            return false;
        }
    }
    true
}

// A frame is checked against its message: refusals 1, 2, 3, 6, 38, lowest first. PRN and flags are not looked at.
pub fn check(message: &[u8], frame: &[u8]) -> Verdict
    ensures { says result ≡ check_says message.now frame.now }
{
    if wrong_length(message.len(), frame.len()) {
        return Err(Refusal::Number(1));
    }
    if bits::get8(message, 486, 2) != 0 {
        return Err(Refusal::Number(2));
    }
    if bits::get16(frame, 0, 16) != 0xEB90 {
        return Err(Refusal::Number(3));
    }
    let g = parity::failed_groups(frame);
    if g.failing != 0 {
        return Err(Refusal::Parity(g.first, g.failing));
    }
    if !keeps_symbols(message, frame) {
        return Err(Refusal::Number(38));
    }
    Ok(())
}
