// Type 3 written: satellites, each with its code biases.
#![tactic(auto)]

ghost use Rattle.std.specs.Prelude.{◌≡◌, ℕ, ◌+◌, ◌<◌, get_or};
ghost use Rattle.bits.specs.Bits.{puts_at, put_rows};
ghost use Rattle.biases.specs.Biases.{sat_widths, bias_widths};
ghost use Rattle.fitting.specs.Fits.{eight, fits, all_fit};
ghost use Rattle.bias_writing.specs.Put.{sat_vals, bias_vals, sat_row, bias_row, biases_fit, sat_put, sats_put, biases_put};

use biases::{Bias, BiasPart, BiasSat};
use fitting::{head_fits, put_part_head, raw_or, row_fits};

// The values of a satellite's fields.
fn sat_vals(r: BiasSat) -> [u64; 8]
    ensures { result ≡ eight (sat_vals r) }
{
    [r.slot as u64, r.count as u64, 0, 0, 0, 0, 0, 0]
}

// The values of a bias's fields.
fn bias_vals(b: Bias) -> [u64; 8]
    ensures { result ≡ eight (bias_vals b) }
{
    let value = raw_or(b.value, 2048);
    [b.mode as u64, value, 0, 0, 0, 0, 0, 0]
}

// Whether the fields of a satellite are within their widths.
fn sat_fits(r: BiasSat) -> bool
    ensures { result ≡ fits sat_widths (sat_vals r) }
{
    row_fits([9, 4, 0, 0, 0, 0, 0, 0], sat_vals(r))
}

// Whether the fields of a bias are within their widths.
fn bias_fits(b: Bias) -> bool
    ensures { result ≡ fits bias_widths (bias_vals b) }
{
    row_fits([4, 12, 0, 0, 0, 0, 0, 0], bias_vals(b))
}

// Whether the fields of each satellite are within their widths.
fn sats_fit(rs: &[BiasSat; 31]) -> bool
    ensures { result ≡ all_fit sat_widths (sat_row rs.now) 31 }
{
    rs.iter().all(|r| sat_fits(*r))
}

// Whether the fields of each bias are within their widths.
fn row_of_biases_fits(bs: &[Bias; 25]) -> bool
    ensures { result ≡ all_fit bias_widths (bias_row bs.now) 25 }
{
    bs.iter().all(|b| bias_fits(*b))
}

// Whether every field of a canonical part is within its width.
pub fn biases_fit(p: BiasPart) -> bool
    ensures { result ≡ biases_fit p }
{
    head_fits(0, 5, p.epoch, p.ssr, 0, p.count as u16)
        && sats_fit(&p.sats)
        && row_of_biases_fits(&p.biases)
}

// Element i, from 0; a blank past the end.
fn nth<T: Copy>(xs: &[T], i: usize, blank: T) -> T
    ensures { result ≡ get_or xs.now i blank }
{
    if i < xs.len() { xs[i] } else { blank }
}

// A bias is put from bit at on.
fn put_bias(room: &mut [u8], at: u32, b: Bias)
    ensures { room.new ≡ puts_at room.old at bias_widths (bias_vals b) }
{
    put_bits::puts(room, at, [4, 12, 0, 0, 0, 0, 0, 0], bias_vals(b));
}

// The biases from entry k on are put in a row from bit at on, n of them.
fn put_row(room: &mut [u8], at: u32, bs: &[Bias; 25], k: u32, n: u8)
    requires { (at < 3000000) × (k < 3000000) }
    ensures { room.new ≡ put_rows room.old at bias_widths (λ (i : ℕ). bias_row bs.now (k + i)) n }
{
    for i in 0..n as u32 {
        let b = nth(bs, (k + i) as usize, Bias { mode: 0, value: 0 });
        put_bias(room, at + 16 * i, b);
    }
}

// A satellite is put from bit at on, and its biases behind it: those from entry k on.
fn put_sat(room: &mut [u8], at: u32, r: BiasSat, bs: &[Bias; 25], k: u32)
    requires { (at < 2000000) × (k < 2000000) }
    ensures { room.new ≡ sat_put room.old at r bs.now k }
{
    put_bits::puts(room, at, [9, 4, 0, 0, 0, 0, 0, 0], sat_vals(r));
    put_row(room, at + 13, bs, k, r.count);
}

// Satellites are put in a row from bit at on, n of them, each with its biases.
fn put_sats(room: &mut [u8], at: u32, rs: &[BiasSat; 31], bs: &[Bias; 25], n: u8)
    requires { at < 1000 }
    ensures { room.new ≡ sats_put room.old at rs.now bs.now n }
{
    let mut used: u32 = 0;
    for i in 0..n as u32 {
        let r = nth(rs, i as usize, BiasSat { slot: 0, count: 0 });
        put_sat(room, at + (13 * i + 16 * used), r, bs, used);
        used += r.count as u32;
    }
}

// The part is put from bit at on, the bit after the type; bits past the end are lost.
pub fn put_biases(room: &mut [u8], at: u8, p: BiasPart)
    ensures { room.new ≡ biases_put room.old at p }
{
    let from = at as u32 + 28;
    put_part_head(room, at as u32, 0, 5, p.epoch, p.ssr, 0, p.count as u16);
    put_sats(room, from, &p.sats, &p.biases, p.count);
}
