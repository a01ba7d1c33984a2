// The fields of subframe 2 of B-CNAV1 as bytes at the C boundary: include/quieuvodan.h.
#![tactic(auto)]

ghost use Rattle.std.specs.Prelude.{◌≡◌, ◌^◌};
ghost use Rattle.bits.specs.Bytes.{store_at};
ghost use Rattle.records.specs.Signed.{raw_half};
ghost use Rattle.verdict.specs.Verdict.{says, refused_by};
ghost use Rattle.flat_subframe2.specs.Write.{eight_bytes, fields_bytes};
ghost use Rattle.flat_subframe2.specs.Read.{fields_refusal, fields_into};

use verdict::{Refusal, Verdict};

// A number with its sign as eight bytes say it.
fn raw64(z: i64) -> u64
    ensures { result ≡ raw_half (2 ^ 63) z }
{
    if z < 0 {
        let d = (-1 - z) as u64;
        0xFFFFFFFFFFFFFFFF - d
    } else {
        z as u64
    }
}

// The eight bytes of a number.
fn eight_bytes(x: u64) -> [u8; 8]
    ensures { result ≡ eight_bytes x }
{
    x.to_be_bytes()
}

// A field is put from byte at on.
fn put_field(room: &mut [u8], at: usize, z: i64)
    ensures { room.new ≡ store_at room.old at (eight_bytes (raw_half (2 ^ 63) z)) }
{
    lent::store(room, at, &eight_bytes(raw64(z)));
}

// The fields are put from the room's first byte on; bytes past its end are lost.
pub fn put_fields(room: &mut [u8], fields: [i64; 31])
    ensures { room.new ≡ store_at room.old 0 (fields_bytes fields) }
{
    for (i, z) in fields.iter().enumerate() {
        put_field(room, 8 * i, *z);
    }
}

// The fields of a subframe are read into a lent room of 248 bytes: 39 for the room, then 35 to 37. On a refusal the room is as it was.
pub fn read_fields(room: &mut [u8], s: &[u8]) -> Verdict
    ensures verdict { says result ≡ refused_by (fields_refusal room.old s.now) }
    ensures bytes { room.new ≡ fields_into room.old s.now }
{
    if room.len() != 248 {
        return Err(Refusal::Number(39));
    }
    let fields = subframe2::read(s)?;
    put_fields(room, fields);
    Ok(())
}
