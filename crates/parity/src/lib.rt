// The parity check of a frame (01, Parity and check bits): 81 groups of four symbols.
#![tactic(auto)]

ghost use Rattle.std.specs.Prelude.{◌≡◌, ◌*◌, ◌/◌, ◌%◌, ◌^◌, ◌<◌};
ghost use Rattle.bits.specs.Bits.{field_at};
ghost use Rattle.field64.specs.Padded.{pad_log, pad_logs, pad_powers};
ghost use Rattle.parity_tables.specs.Tables.{positions, factors};
ghost use Rattle.parity.specs.Parity.{parity_ok, failed_groups};
ghost use Rattle.parity.specs.Unpacked.{symbol_logs, term_by, row_by, fails_by_logs};

// The 32 bits from byte j on; bits past the end are 0.
fn four(s: &[u8], j: usize) -> u32
    requires { j < 1000 }
    ensures { result ≡ field_at s.now (8 * j) 32 }
{
    if j + 3 < s.len() {
        u32::from_be_bytes([s[j], s[j + 1], s[j + 2], s[j + 3]])
    } else {
        bits::get32(s, 8 * j, 32)
    }
}

// The logarithm of the symbol that stands h bits from the end of w.
fn log_of(w: u32, h: u32) -> u8
    requires { h < 32 }
    ensures { result ≡ pad_log (w / 2 ^ h % 64) }
{
    field64::padded::padded_log(((w >> h) % 64) as u8)
}

// The logarithms of the symbols of the frame's coded part, four symbols a turn.
fn symbol_logs(frame: &[u8]) -> [u8; 256]
    ensures { result ≡ symbol_logs frame.now }
{
    let mut out = [0u8; 256];
    for q in 0..41usize {
        let w = four(frame, 3 + 3 * q);
        out[4 * q] = log_of(w, 22);
        out[4 * q + 1] = log_of(w, 16);
        out[4 * q + 2] = log_of(w, 10);
        out[4 * q + 3] = log_of(w, 4);
    }
    out
}

// Factor times symbol, by logarithms; their sum is within a byte.
fn term(ls: &[u8; 256], p: u8, f: u8) -> u8
    ensures { result ≡ term_by pad_logs pad_powers ls.now p f }
{
    field64::padded::padded_power(field64::padded::padded_log(f).wrapping_add(ls[p as usize]))
}

// The sum of factor times symbol at the position, over a group.
fn row(ls: &[u8; 256], ps: &[u8; 4], fs: &[u8; 4]) -> u8
    ensures { result ≡ row_by pad_logs pad_powers ls.now ps.now fs.now }
{
    let mut s: u8 = 0;
    for (&p, &f) in ps.iter().zip(fs) {
        s ^= term(ls, p, f);
    }
    s
}

// Group g fails: its sum is not zero.
fn fails(position: &[[u8; 4]; 81], factor: &[[u8; 4]; 81], ls: &[u8; 256], g: usize) -> bool
    requires { (g < 81) × (position.now ≡ positions) × (factor.now ≡ factors) }
    ensures { result ≡ fails_by_logs ls.now g }
{
    row(ls, &position[g], &factor[g]) != 0
}

// The first failing group, counted from 1, and how many fail; both 0 if none fails.
#[derive(Clone, Copy)]
pub struct Groups {
    pub first: u8,
    pub failing: u8,
}

// The first failing group and how many fail: from the last group down to the first.
pub fn failed_groups(frame: &[u8]) -> Groups
    ensures { result ≡ failed_groups frame.now }
{
    let position = parity_tables::position_table();
    let factor = parity_tables::factor_table();
    let ls = symbol_logs(frame);
    let mut first: u8 = 0;
    let mut failing: u8 = 0;
    for g in (0..81u8).rev() {
        if fails(&position, &factor, &ls, g as usize) {
            first = g + 1;
            failing += 1;
        }
    }
    Groups { first, failing }
}

// The sum of every group is zero.
pub fn parity_ok(frame: &[u8]) -> bool
    ensures { result ≡ parity_ok frame.now }
{
    failed_groups(frame).failing == 0
}
