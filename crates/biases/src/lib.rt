// Type 3: code biases of satellites.
#![tactic(auto)]

ghost use Rattle.std.specs.Prelude.{◌≡◌, ◌<◌};
ghost use Rattle.biases.specs.Biases.{sat_at, bias_at, next_sat, bias_nth, sat_place, sats_at, biases_at, filled, stored, blank_sat, no_bias, sat_count, bias_part_at, bias_heads_at, bias_end, no_biases};

use records::signed::signed12;

// A satellite and how many biases it has.
#[derive(Clone, Copy, PartialEq, Eq)]
pub struct BiasSat {
    pub slot: u16,
    pub count: u8,
}

// Signal and tracking mode, and the bias, raw.
#[derive(Clone, Copy, PartialEq, Eq)]
pub struct Bias {
    pub mode: u8,
    pub value: i16,
}

// The part of a type 3: count satellites, and the biases of all of them, one behind the other.
#[derive(Clone, Copy, PartialEq, Eq)]
pub struct BiasPart {
    pub epoch: u32,
    pub ssr: u8,
    pub count: u8,
    pub sats: [BiasSat; 31],
    pub biases: [Bias; 25],
}

// A blank satellite, and a bias that is not there.
const NO_SAT: BiasSat = BiasSat { slot: 0, count: 0 };

const NO_BIAS: Bias = Bias { mode: 0, value: 0 };

// An absent part.
pub fn no_biases() -> BiasPart
    ensures { result ≡ no_biases }
{
    BiasPart {
        epoch: 0,
        ssr: 0,
        count: 0,
        sats: [NO_SAT; 31],
        biases: [NO_BIAS; 25],
    }
}

// The satellite from bit at on, its two fields read as one of 13 bits; a blank has no biases.
fn sat_at(s: &[u8], at: u32) -> BiasSat
    ensures { result ≡ sat_at s.now at }
{
    let x = bits::get16(s, at as usize, 13);
    let slot = x / 16;
    if slot == 0 {
        return BiasSat { slot, count: 0 };
    }
    let count = (x % 16) as u8;
    BiasSat { slot, count }
}

// The bias from bit at on, its two fields read as one of 16 bits.
fn bias_at(s: &[u8], at: u32) -> Bias
    ensures { result ≡ bias_at s.now at }
{
    let x = bits::get16(s, at as usize, 16);
    let mode = (x / 4096) as u8;
    let value = signed12(x);
    Bias { mode, value }
}

// Where the satellite after the one at bit at begins.
fn next_sat(s: &[u8], at: u32) -> u32
    requires { at < 100000 }
    ensures { result ≡ next_sat s.now at }
{
    let n = bits::get8(s, at as usize + 9, 4);
    at + (13 + 16 * (n as u32))
}

// Count satellites in a row, and blanks behind them.
fn read_sats(s: &[u8], at: u32, count: u8) -> [BiasSat; 31]
    requires { (at < 70000) × (count < 32) }
    ensures { result ≡ filled 31 blank_sat (sats_at s.now at count) }
{
    let mut out = [NO_SAT; 31];
    let mut p = at;
    for i in 0..count as usize {
        out[i] = sat_at(s, p);
        p = next_sat(s, p);
    }
    out
}

// Stores the biases of the satellite at bit at into a row from entry used on; those past the end are lost.
fn store_biases(s: &[u8], at: u32, count: u8, row: &mut [Bias; 25], used: u32)
    requires { (at < 100000) × (used < 100000) }
    ensures { row.new ≡ stored row.old used (bias_nth s.now at) count }
{
    for j in 0..(count as u32).min(25u32.saturating_sub(used)) {
        row[(used + j) as usize] = bias_at(s, at + 13 + 16 * j);
    }
}

// The biases of count satellites in a row, one behind the other, and none behind them.
fn read_row(s: &[u8], at: u32, count: u8) -> [Bias; 25]
    requires { (at < 70000) × (count < 32) }
    ensures { result ≡ filled 25 no_bias (biases_at s.now at count) }
{
    let mut out = [NO_BIAS; 25];
    let mut used: u32 = 0;
    let mut p = at;
    for _ in 0..count {
        let sat = sat_at(s, p);
        store_biases(s, p, sat.count, &mut out, used);
        used += sat.count as u32;
        p = next_sat(s, p);
    }
    out
}

// The bit after count satellites and their biases.
fn end_from(s: &[u8], at: u32, count: u8) -> u32
    requires { (at < 70000) × (count < 32) }
    ensures { result ≡ sat_place s.now at count }
{
    let mut p = at;
    for _ in 0..count {
        p = next_sat(s, p);
    }
    p
}

// The part from bit at on, the bit after the type, without its biases: no verdict looks at those.
pub fn read_heads(s: &[u8], at: u16) -> BiasPart
    ensures { result ≡ bias_heads_at s.now at }
{
    let a = at as usize;
    let epoch = bits::get32(s, a, 17);
    let ssr = bits::get8(s, a + 17 + 4, 2);
    let count = bits::get8(s, a + 17 + 4 + 2 + 0, 5);
    let sats = read_sats(s, at as u32 + 28, count);
    let none = no_biases();
    BiasPart {
        epoch,
        ssr,
        count,
        sats,
        ..none
    }
}

// The part from bit at on, the bit after the type.
pub fn read_biases(s: &[u8], at: u16) -> BiasPart
    ensures { result ≡ bias_part_at s.now at }
{
    let heads = read_heads(s, at);
    let biases = read_row(s, at as u32 + 28, heads.count);
    BiasPart { biases, ..heads }
}

// Where the part from bit at on ends: the bit after its last bias, those of blanks too.
pub fn biases_end(s: &[u8], at: u16) -> u32
    ensures { result ≡ bias_end s.now at }
{
    let count = bits::get8(s, at as usize + 17 + 4 + 2 + 0, 5);
    end_from(s, at as u32 + 28, count)
}
