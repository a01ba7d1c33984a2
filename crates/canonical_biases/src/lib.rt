// The part of a type 3 with all zero that it does not carry: what is written, and what reading gives back.
#![tactic(auto)]

ghost use Rattle.std.specs.Prelude.{◌≡◌, ◌+◌, ◌<◌, ◌≤◌};
ghost use Rattle.canonical_biases.specs.Canon.{canon_sat, canon_sats, bias_count, canon_bias, canon_row, canon_biases, bias_bits};

use biases::{Bias, BiasPart, BiasSat};
use std::array;

// Satellite i, from 0; blank past the count, and where its slot is 0.
fn canon_sat(n: u8, rs: &[BiasSat; 31], i: usize) -> BiasSat
    requires { i < 31 }
    ensures { result ≡ canon_sat n rs.now i }
{
    if i < n as usize && rs[i].slot != 0 {
        rs[i]
    } else {
        BiasSat { slot: 0, count: 0 }
    }
}

// The satellites of a part.
fn canon_sats(n: u8, rs: &[BiasSat; 31]) -> [BiasSat; 31]
    ensures { result ≡ canon_sats n rs.now }
{
    array::from_fn(|i| canon_sat(n, rs, i))
}

// How many biases the satellites have.
fn bias_count(rs: &[BiasSat; 31]) -> u32
    ensures { (result ≡ bias_count rs.now 31) × (result ≤ 7905) }
{
    let mut n: u32 = 0;
    for r in rs {
        n += r.count as u32;
    }
    n
}

// Bias i, from 0; none past the number.
fn canon_bias(n: u32, bs: &[Bias; 25], i: usize) -> Bias
    requires { i < 25 }
    ensures { result ≡ canon_bias n bs.now i }
{
    if i < n as usize {
        bs[i]
    } else {
        Bias { mode: 0, value: 0 }
    }
}

// The biases of a part.
fn canon_row(n: u32, bs: &[Bias; 25]) -> [Bias; 25]
    ensures { result ≡ canon_row n bs.now }
{
    array::from_fn(|i| canon_bias(n, bs, i))
}

// The part as it is written: a blank has no biases; satellites past the count and biases past those of the satellites are zeros.
pub fn canon_biases(p: BiasPart) -> BiasPart
    ensures { result ≡ canon_biases p }
{
    let sats = canon_sats(p.count, &p.sats);
    let biases = canon_row(bias_count(&sats), &p.biases);
    BiasPart { sats, biases, ..p }
}

// The bit after a canonical part that is written from bit at on.
pub fn written_end(at: u8, p: BiasPart) -> u32
    ensures { result ≡ at + bias_bits p }
{
    let n = bias_count(&p.sats);
    at as u32 + (28 + (13 * (p.count as u32) + 16 * n))
}
