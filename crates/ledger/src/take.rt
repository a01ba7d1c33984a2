// Taking one frame, whole or not at all.
ghost use Rattle.std.specs.Prelude.{◌≡◌, ◌≢◌};
ghost use Rattle.verdict.specs.Verdict.{says};
ghost use Rattle.frame.specs.Frame.{contents_of, foreign_to, shell_refusal};
ghost use Rattle.in_force.specs.Bytes.{prn_at, take_says, take_bytes};

use crate::Ledger;
use biases::read_heads;
use clock_keeping::take_clocks;
use clock_reading::clocks_of;
use code_keeping::take_codes;
use contents::read::kind_of;
use judging::{refusal_of_biases, refusal_of_codes, refusal_of_mask, refusal_of_parts};
use keeping::{take_mask, take_orbits};
use mask_reading::mask_of;
use orbit_reading::orbits_of;
use places::{code_refusal, place_verdict};
use reading::{codes_of, end_at};
use verdict::Verdict;

// The PRN that the ledger is for.
fn ledger_prn(t: &[u8]) -> u8
    ensures { result ≡ prn_at t.now }
{
    if 0 < t.len() { t[0] } else { 0 }
}

// A type 1 in a good frame is taken, or refused.
fn take_type_1(t: &mut [u8], frame: &[u8]) -> Verdict
    requires { (shell_refusal (foreign_to (prn_at t.old) frame.now) frame.now ≡ 0) × ((contents_of frame.now).kind ≡ 1) }
    ensures verdict { says result ≡ take_says t.old frame.now }
    ensures bytes { t.new ≡ take_bytes t.old frame.now }
{
    let m = mask_of(frame, 28);
    refusal_of_mask(m)?;
    take_mask(t, m);
    Ok(())
}

// What is said of a type 3 in a good frame, which leaves a ledger as it was.
fn type_3_verdict(t: &[u8], frame: &[u8]) -> Verdict
    requires { (shell_refusal (foreign_to (prn_at t.now) frame.now) frame.now ≡ 0) × ((contents_of frame.now).kind ≡ 3) }
    ensures verdict { says result ≡ take_says t.now frame.now }
    ensures bytes { t.now ≡ take_bytes t.now frame.now }
{
    let b = read_heads(frame, 34);
    refusal_of_biases(end_at(frame, 28), b)?;
    Ok(())
}

// A type 5 in a good frame is taken, or refused.
fn take_type_5(t: &mut [u8], frame: &[u8]) -> Verdict
    requires { (shell_refusal (foreign_to (prn_at t.old) frame.now) frame.now ≡ 0) × ((contents_of frame.now).kind ≡ 5) }
    ensures verdict { says result ≡ take_says t.old frame.now }
    ensures bytes { t.new ≡ take_bytes t.old frame.now }
{
    let u = codes_of(frame, 28);
    refusal_of_codes(u)?;
    code_refusal(t, u)?;
    take_codes(t, u);
    Ok(())
}

// A message of another type in a good frame is taken, or refused.
fn take_parts(t: &mut [u8], frame: &[u8]) -> Verdict
    requires { (shell_refusal (foreign_to (prn_at t.old) frame.now) frame.now ≡ 0)
        × ((contents_of frame.now).kind ≢ 1)
        × ((contents_of frame.now).kind ≢ 3)
        × ((contents_of frame.now).kind ≢ 5) }
    ensures verdict { says result ≡ take_says t.old frame.now }
    ensures bytes { t.new ≡ take_bytes t.old frame.now }
{
    let kind = kind_of(frame, 28);
    let k = clocks_of(frame, 28);
    let o = orbits_of(frame, 28);
    refusal_of_parts(kind, k, o)?;
    place_verdict(t, kind, k)?;
    take_clocks(t, kind, k);
    take_orbits(t, kind, o);
    Ok(())
}

// A message in a good frame is taken, or refused.
fn take_message(t: &mut [u8], frame: &[u8]) -> Verdict
    requires { shell_refusal (foreign_to (prn_at t.old) frame.now) frame.now ≡ 0 }
    ensures verdict { says result ≡ take_says t.old frame.now }
    ensures bytes { t.new ≡ take_bytes t.old frame.now }
{
    let kind = kind_of(frame, 28);
    if kind == 1 {
        return take_type_1(t, frame);
    }
    if kind == 3 {
        return type_3_verdict(t, frame);
    }
    if kind == 5 {
        return take_type_5(t, frame);
    }
    take_parts(t, frame)
}

// A frame is taken into the bytes of a ledger, or refused.
pub fn take_in(t: &mut [u8], frame: &[u8]) -> Verdict
    ensures verdict { says result ≡ take_says t.old frame.now }
    ensures bytes { t.new ≡ take_bytes t.old frame.now }
{
    frame::shell_for(frame, ledger_prn(t))?;
    take_message(t, frame)
}

// A frame is taken into a ledger: refusals 1, 3 to 12, 14, 15 and 19, lowest first. On a refusal every byte is as it was.
pub fn take(ledger: &mut Ledger, frame: &[u8]) -> Verdict
    ensures verdict { says result ≡ take_says ledger.old frame.now }
    ensures bytes { ledger.new ≡ take_bytes ledger.old frame.now }
{
    take_in(ledger, frame)
}
