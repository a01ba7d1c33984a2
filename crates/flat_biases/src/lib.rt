// The parts of types 3 and 5 as bytes at the C boundary: include/quieuvodan.h. Numbers are high byte first; bytes past the end are 0, or lost.
#![tactic(auto)]

ghost use Rattle.std.specs.Prelude.{◌≡◌, ◌++◌, ◌<◌};
ghost use Rattle.bits.specs.Bytes.{store_at, row_at};
ghost use Rattle.flat_numbers.specs.Rows.{rows_to};
ghost use Rattle.flat_biases.specs.Biases.{flat_sat_bytes, flat_sat_row, flat_bias_bytes, flat_bias_row, flat_bias_head, biases_bytes, flat_sat_at, flat_sats_at, flat_bias_at, flat_biases_at, flat_biases_in};
ghost use Rattle.flat_biases.specs.Codes.{flat_code_head, codes_bytes, flat_codes_in};

use biases::{Bias, BiasPart, BiasSat};
use flat_numbers::{raw16, signed16};
use std::array;
use ura_codes::CodePart;

// The bytes of a satellite.
fn sat_bytes(r: BiasSat) -> [u8; 3]
    ensures { result ≡ flat_sat_bytes r }
{
    let [hi, lo] = r.slot.to_be_bytes();
    [hi, lo, r.count]
}

// The bytes of a bias.
fn bias_bytes(b: Bias) -> [u8; 3]
    ensures { result ≡ flat_bias_bytes b }
{
    let [hi, lo] = raw16(b.value).to_be_bytes();
    [b.mode, hi, lo]
}

// The head of the bias part.
fn bias_head(epoch: u32, ssr: u8, count: u8) -> [u8; 6]
    ensures { result ≡ flat_bias_head epoch ssr count }
{
    let [e0, e1, e2, e3] = epoch.to_be_bytes();
    [e0, e1, e2, e3, ssr, count]
}

// The head of the code part.
fn code_head(epoch: u32, ssr: u8, iodp: u8, sub: u8) -> [u8; 7]
    ensures { result ≡ flat_code_head epoch ssr iodp sub }
{
    let [e0, e1, e2, e3] = epoch.to_be_bytes();
    [e0, e1, e2, e3, ssr, iodp, sub]
}

// The satellites are put.
fn put_sats(room: &mut [u8], rs: &[BiasSat; 31])
    ensures { room.new ≡ store_at room.old 271 (rows_to (flat_sat_row rs.now) 31) }
{
    for (i, r) in rs.iter().enumerate() {
        lent::store(room, 271 + 3 * i, &sat_bytes(*r));
    }
}

// The biases are put.
fn put_biases(room: &mut [u8], bs: &[Bias; 25])
    ensures { room.new ≡ store_at room.old 364 (rows_to (flat_bias_row bs.now) 25) }
{
    for (i, b) in bs.iter().enumerate() {
        lent::store(room, 364 + 3 * i, &bias_bytes(*b));
    }
}

// The bias part is put.
fn put_bias_part(room: &mut [u8], p: BiasPart)
    ensures { room.new ≡ store_at room.old 265 (biases_bytes p) }
{
    lent::store(room, 265, &bias_head(p.epoch, p.ssr, p.count));
    put_sats(room, &p.sats);
    put_biases(room, &p.biases);
}

// The code part is put.
fn put_code_part(room: &mut [u8], u: CodePart)
    ensures { room.new ≡ store_at room.old 439 (codes_bytes u) }
{
    lent::store(room, 439, &code_head(u.epoch, u.ssr, u.iodp, u.sub));
    lent::store(room, 446, &u.codes);
}

// The parts of types 3 and 5 are put where they stand in contents; bytes past the end are lost.
pub fn put_last_parts(room: &mut [u8], p: BiasPart, u: CodePart)
    ensures { room.new ≡ store_at room.old 265 (biases_bytes p ++ codes_bytes u) }
{
    put_bias_part(room, p);
    put_code_part(room, u);
}

// The satellite from byte at on.
fn read_sat(t: &[u8], at: usize) -> BiasSat
    requires { at < 800 }
    ensures { result ≡ flat_sat_at t.now at }
{
    let slot = lent::two(t, at);
    let count = lent::byte(t, at + 2);
    BiasSat { slot, count }
}

// The 31 satellites.
fn read_sats(t: &[u8]) -> [BiasSat; 31]
    ensures { result ≡ flat_sats_at t.now }
{
    array::from_fn(|i| read_sat(t, 271 + 3 * i))
}

// The bias from byte at on.
fn read_bias(t: &[u8], at: usize) -> Bias
    requires { at < 800 }
    ensures { result ≡ flat_bias_at t.now at }
{
    let mode = lent::byte(t, at);
    let value = signed16(lent::two(t, at + 1));
    Bias { mode, value }
}

// The 25 biases.
fn read_biases(t: &[u8]) -> [Bias; 25]
    ensures { result ≡ flat_biases_at t.now }
{
    array::from_fn(|i| read_bias(t, 364 + 3 * i))
}

// The bias part of contents; bytes past the end are 0.
pub fn read_bias_part(t: &[u8]) -> BiasPart
    ensures { result ≡ flat_biases_in t.now }
{
    let epoch = lent::four(t, 265);
    let ssr = lent::byte(t, 269);
    let count = lent::byte(t, 270);
    let sats = read_sats(t);
    let biases = read_biases(t);
    BiasPart {
        epoch,
        ssr,
        count,
        sats,
        biases,
    }
}

// The 70 codes.
fn read_codes(t: &[u8]) -> [u8; 70]
    ensures { result ≡ row_at t.now 446 70 }
{
    array::from_fn(|i| lent::byte(t, 446 + i))
}

// The code part of contents; bytes past the end are 0.
pub fn read_code_part(t: &[u8]) -> CodePart
    ensures { result ≡ flat_codes_in t.now }
{
    let epoch = lent::four(t, 439);
    let ssr = lent::byte(t, 443);
    let iodp = lent::byte(t, 444);
    let sub = lent::byte(t, 445);
    let codes = read_codes(t);
    CodePart {
        epoch,
        ssr,
        iodp,
        sub,
        codes,
    }
}
