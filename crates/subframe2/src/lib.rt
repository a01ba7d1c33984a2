// Subframe 2 of B-CNAV1 (001, figure 6-6): 75 bytes read to its 31 fields as raw numbers.
#![tactic(auto)]

ghost use Rattle.std.specs.Prelude.{◌≡◌, ◌*◌, ◌<◌, ◌^◌};
ghost use Rattle.bits.specs.Bits.{field_at};
ghost use Rattle.bits.specs.Table.{table};
ghost use Rattle.records.specs.Signed.{signed_half};
ghost use Rattle.subframe2.specs.Fields.{width_of, is_signed, number_of, fields_of};
ghost use Rattle.verdict.specs.Verdict.{refused_says, refused_by};
ghost use Rattle.subframe2.specs.Read.{subframe2_refusal, subframe2_says, read_subframe2};

use verdict::{Refusal, Refused};

// 001, figures 6-6 and 6-12 to 6-14: the bits of each field, in order.
const WIDTHS: [u8; 31] = [
    13, 8, 10, 8, 11, 2, 26, 25, 17, 23, 33, 33, 33, 33, 33, 19, 15, 16, 16, 24, 24, 21, 21, 11,
    25, 22, 11, 12, 12, 12, 7,
];

// 001, chapter 7: whether they are in two's complement.
const SIGNED: [bool; 31] = [
    false, false, false, false, false, false, true, true, true, true, true, false, true, true,
    true, true, true, true, true, true, true, true, true, false, true, true, true, true, true,
    true, false,
];

// The fields in the figure's order, or why there are none.
pub type Subframe2 = Result<[i64; 31], Refusal>;

// The table of the widths.
fn widths() -> [u8; 31]
    ensures { result ≡ table width_of 31 }
{
    WIDTHS
}

// The table of the signs.
fn signs() -> [bool; 31]
    ensures { result ≡ table is_signed 31 }
{
    SIGNED
}

// The number that the bits of x say in two's complement, where the highest weighs half.
fn signed(x: u64, half: u64) -> i64
    requires { (half < 2 ^ 62) × (x < 2 * half) }
    ensures { result ≡ signed_half half x }
{
    if x < half {
        x as i64
    } else {
        let d = (2 * half - 1 - x) as i64;
        -1 - d
    }
}

// The number that the n bits from bit at on say, in two's complement or not.
fn number_at(s: &[u8], at: usize, n: u8, complement: bool) -> i64
    requires { (0 < n) × (n < 57) }
    ensures { result ≡ number_of n complement (field_at s.now at n) }
{
    let x = bits::get(s, at, n as usize);
    if complement {
        let half = 1u64 << (n - 1);
        signed(x, half)
    } else {
        x as i64
    }
}

// All fields, in order.
fn fields_of(s: &[u8]) -> [i64; 31]
    ensures { result ≡ fields_of s.now }
{
    let ws = widths();
    let ss = signs();
    let mut out = [0i64; 31];
    let mut at: usize = 0;
    for i in 0..31 {
        let w = ws[i];
        out[i] = number_at(s, at, w, ss[i]);
        at += w as usize;
    }
    out
}

// Why the bytes are refused: 35 to 37, lowest first.
fn refusal_of(s: &[u8]) -> Result<(), Refused>
    ensures { refused_says result ≡ refused_by (subframe2_refusal s.now) }
{
    if s.len() != 75 {
        return Err(Refused(35));
    }
    if !check24::check_ok(s, 0, 576) {
        return Err(Refused(36));
    }
    if 167 < bits::get8(s, 13, 8) {
        return Err(Refused(37));
    }
    Ok(())
}

// A subframe is read: refusals 35 to 37, lowest first.
pub fn read(s: &[u8]) -> Subframe2
    ensures { subframe2_says result ≡ read_subframe2 s.now }
{
    refusal_of(s)?;
    Ok(fields_of(s))
}
