// Subframes of the D1 and D2 messages (003, section 5.2.2): 38 bytes of ten words against the 28 bytes of their information bits.
#![tactic(auto)]

ghost use Rattle.std.specs.Prelude.{◌≡◌, false, ◌*◌, ◌<◌};
ghost use Rattle.bits.specs.Bits.{field_at};
ghost use Rattle.verdict.specs.Verdict.{says, refused_says, refused_by};
ghost use Rattle.d1_subframes.specs.Subframe.{width_of, offset_of, info_of, sent_of, data_of, subframe_of};
ghost use Rattle.d1_subframes.specs.Subframe.{subframe_refusal, read_refusal, subframe_write_refusal, read_into, written_into};

use verdict::{Refusal, Refused, Verdict};

// How many information bits word i, from 0, has.
fn width_of(i: usize) -> u8
    ensures { result ≡ width_of i }
{
    if i == 0 { 26 } else { 22 }
}

// Where they begin among all of them.
fn offset_of(i: usize) -> usize
    requires { i < 10 }
    ensures { result ≡ offset_of i }
{
    if i == 0 { 0 } else { 4 + 22 * i }
}

// The information bits of word i of a subframe, its code words corrected.
fn info_at(s: &[u8], i: usize) -> u32
    requires { i < 10 }
    ensures { result ≡ info_of i (field_at s.now (30 * i) 30) }
{
    let w = bits::get32(s, 30 * i, 30);
    if i == 0 {
        d1_words::read_first(w)
    } else {
        d1_words::read_word(w)
    }
}

// Word i of a subframe with the given information bits.
fn sent_at(d: &[u8], i: usize) -> u32
    requires { i < 10 }
    ensures { result ≡ sent_of i (field_at d.now (offset_of i) (width_of i)) }
{
    if i == 0 {
        d1_words::write_first(bits::get32(d, 0, 26))
    } else {
        d1_words::write_word(bits::get32(d, 4 + 22 * i, 22))
    }
}

// The 224 information bits of a subframe.
fn data_of(s: &[u8]) -> [u8; 28]
    ensures { result ≡ data_of s.now }
{
    let mut out = [0u8; 28];
    for i in 0..10 {
        let v = info_at(s, i);
        put_bits::put(&mut out, offset_of(i), width_of(i), v as u64);
    }
    out
}

// The subframe of 224 information bits: 300 bits, then four zero bits.
fn subframe_of(d: &[u8]) -> [u8; 38]
    ensures { result ≡ subframe_of d.now }
{
    let mut out = [0u8; 38];
    for i in 0..10 {
        let w = sent_at(d, i);
        put_bits::put(&mut out, 30 * i, 30, w as u64);
    }
    out
}

// Refusals 32 to 34 of information bits, lowest first.
fn refusal_of(d: &[u8]) -> Result<(), Refused>
    ensures { refused_says result ≡ refused_by (subframe_refusal false d.now) }
{
    if bits::get16(d, 0, 11) != 0b11100010010 {
        return Err(Refused(32));
    }
    let frame = bits::get8(d, 15, 3);
    if (frame < 1) | (5 < frame) {
        return Err(Refused(33));
    }
    if 604799 < bits::get32(d, 18, 20) {
        return Err(Refused(34));
    }
    Ok(())
}

// A subframe is read into a lent room of 28 bytes: refusals 31 to 34, lowest first. On a refusal the room is as it was.
pub fn read_subframe(room: &mut [u8], s: &[u8]) -> Verdict
    ensures verdict { says result ≡ refused_by (read_refusal room.old s.now) }
    ensures bytes { room.new ≡ read_into room.old s.now }
{
    let closing = bits::get8(s, 300, 4);
    if (s.len() != 38) | (room.len() != 28) | (closing != 0) {
        return Err(Refusal::Number(31));
    }
    let d = data_of(s);
    refusal_of(&d)?;
    lent::store(room, 0, &d);
    Ok(())
}

// A subframe is written into a lent room of 38 bytes: refusals 31 to 34, lowest first. On a refusal the room is as it was.
pub fn write_subframe(room: &mut [u8], s: &[u8]) -> Verdict
    ensures verdict { says result ≡ refused_by (subframe_write_refusal room.old s.now) }
    ensures bytes { room.new ≡ written_into room.old s.now }
{
    if (s.len() != 28) | (room.len() != 38) {
        return Err(Refusal::Number(31));
    }
    refusal_of(s)?;
    let w = subframe_of(s);
    lent::store(room, 0, &w);
    Ok(())
}
