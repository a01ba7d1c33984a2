// What is wrong with contents: 01's refusals 8 to 12. Reading and writing judge by this alone; 9 goes by where the parts end, which is said.
#![tactic(auto)]

ghost use Rattle.std.specs.Prelude.{◌≡◌, ◌<◌};
ghost use Rattle.verdict.specs.Verdict.{refused_says, refused_by};
ghost use Rattle.judge.specs.Judge.{is_kind, is_late, late, bad_start, refusal_by, refusal_of, mask_refusal_of, parts_refusal_of, biases_refusal_of, codes_refusal_of};

use biases::BiasPart;
use contents::parts::{ClockPart, Contents, MaskPart, OrbitPart};
use layout::{end_of, layout_of};
use record_slots::{clock_faults, orbit_faults, sat_faults};
use ura_codes::CodePart;
use verdict::Refused;

// Whether the type is one that is read and written.
fn is_kind(k: u8) -> bool
    ensures { result ≡ is_kind k }
{
    ((1 <= k) & (k <= 7)) | (k == 63)
}

// Whether an epoch is above 86399.
fn is_late(e: u32) -> bool
    ensures { result ≡ is_late e }
{
    e > 86399
}

// Whether Slot_S is 0 or above 255 where it counts.
fn bad_start(kind: u8, count: u8, start: u16) -> bool
    ensures { result ≡ bad_start kind count start }
{
    (kind == 6) & (count > 0) & ((start == 0) | (start > 255))
}

// The lowest number of 8 to 12 that applies, or none.
fn refusal_by(kind: u8, end: u32, late: bool, high: bool, again: bool) -> Result<(), Refused>
    ensures { refused_says result ≡ refused_by (refusal_by kind end late high again) }
{
    if !is_kind(kind) {
        return Err(Refused(8));
    }
    if end > 462 {
        return Err(Refused(9));
    }
    if late {
        return Err(Refused(10));
    }
    if high {
        return Err(Refused(11));
    }
    if again {
        return Err(Refused(12));
    }
    Ok(())
}

// Whether an epoch of contents is above 86399.
fn any_late(c: Contents) -> bool
    ensures { result ≡ late c }
{
    let m = c.mask;
    let k = c.clock;
    let o = c.orbit;
    let b = c.bias;
    let u = c.code;
    is_late(m.epoch) | is_late(k.epoch) | is_late(o.epoch) | is_late(b.epoch) | is_late(u.epoch)
}

// The lowest number of 8 to 12 that applies to contents whose parts end at end, or none.
pub fn refusal_of(end: u32, c: Contents) -> Result<(), Refused>
    ensures { refused_says result ≡ refused_by (refusal_of end c) }
{
    let k = c.clock;
    let o = c.orbit;
    let b = c.bias;
    let clocks = k.clocks;
    let orbits = o.orbits;
    let sats = b.sats;
    let ks = clock_faults(clocks);
    let os = orbit_faults(orbits);
    let bs = sat_faults(sats);
    let high = ks.high | os.high | bad_start(c.kind, k.count, k.start) | bs.high;
    refusal_by(
        c.kind,
        end,
        any_late(c),
        high,
        ks.again | os.again | bs.again,
    )
}

// The same of a type 1 by its mask alone.
pub fn refusal_of_mask(m: MaskPart) -> Result<(), Refused>
    ensures { refused_says result ≡ refused_by (mask_refusal_of m) }
{
    refusal_by(1, 0, is_late(m.epoch), false, false)
}

// The same of a type that has clocks and orbits alone, or no part.
pub fn refusal_of_parts(kind: u8, k: ClockPart, o: OrbitPart) -> Result<(), Refused>
    ensures { refused_says result ≡ refused_by (parts_refusal_of kind k o) }
{
    let end = end_of(layout_of(kind, k.count, o.count));
    let late = is_late(k.epoch) | is_late(o.epoch);
    let clocks = k.clocks;
    let orbits = o.orbits;
    let ks = clock_faults(clocks);
    let os = orbit_faults(orbits);
    let high = ks.high | os.high | bad_start(kind, k.count, k.start);
    refusal_by(kind, end, late, high, ks.again | os.again)
}

// The same of a type 3 by its biases, which end at end.
pub fn refusal_of_biases(end: u32, b: BiasPart) -> Result<(), Refused>
    ensures { refused_says result ≡ refused_by (biases_refusal_of end b) }
{
    let sats = b.sats;
    let bs = sat_faults(sats);
    refusal_by(3, end, is_late(b.epoch), bs.high, bs.again)
}

// The same of a type 5 by its URA codes.
pub fn refusal_of_codes(u: CodePart) -> Result<(), Refused>
    ensures { refused_says result ≡ refused_by (codes_refusal_of u) }
{
    refusal_by(5, 0, is_late(u.epoch), false, false)
}
