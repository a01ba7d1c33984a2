// Frames of 125 bytes, read without a ledger or for one PRN: 01, "What arrives and what is handled".
#![tactic(auto)]

ghost use Rattle.std.specs.Prelude.{◌≡◌};
ghost use Rattle.verdict.specs.Verdict.{says};
ghost use Rattle.message.specs.Read.{reading_says};
ghost use Rattle.frame.specs.Frame.{prn_of, is_prn, shell_refusal, frame_says, read_frame, shell_for, read_with};

use message::{Reading, read_at};
use verdict::{Refusal, Verdict};

// The PRN that a frame carries; the bits past the end of a short one are 0.
pub fn prn_of(f: &[u8]) -> u8
    ensures { result ≡ prn_of f.now }
{
    bits::get8(f, 16, 6)
}

// The verdict on the frame around its message: the lowest of 1, 3, 4 where it is foreign, 5, 6, 7, or taken.
fn shell_verdict(f: &[u8], foreign: bool) -> Verdict
    ensures { says result ≡ frame_says f.now (shell_refusal foreign f.now) }
{
    if f.len() != 125 {
        return Err(Refusal::Number(1));
    }
    if bits::get16(f, 0, 16) != 0xEB90 {
        return Err(Refusal::Number(3));
    }
    if foreign {
        return Err(Refusal::Number(4));
    }
    if bits::bit(f, 22) == 1 {
        return Err(Refusal::Number(5));
    }
    let g = parity::failed_groups(f);
    if g.failing != 0 {
        return Err(Refusal::Parity(g.first, g.failing));
    }
    if !check24::check_ok(f, 28, 462) {
        return Err(Refusal::Number(7));
    }
    Ok(())
}

// The frame's message, or the lowest refusal; foreign says whether 4 applies.
fn read_with(f: &[u8], foreign: bool) -> Reading
    ensures { reading_says result ≡ read_with foreign f.now }
{
    shell_verdict(f, foreign)?;
    read_at(f, 28)
}

// A frame read without a ledger: refusals 1, 3, 5 to 13.
pub fn read_frame(f: &[u8]) -> Reading
    ensures { reading_says result ≡ read_frame f.now }
{
    read_with(f, false)
}

// Whether a ledger can be made for the PRN: 1 to 5 and 59 to 63.
pub fn is_prn(prn: u8) -> bool
    ensures { result ≡ is_prn prn }
{
    ((1 <= prn) & (prn <= 5)) | ((59 <= prn) & (prn <= 63))
}

// The verdict on the frame around its message, for one PRN: refusals 1, 3 to 7, or taken.
pub fn shell_for(f: &[u8], prn: u8) -> Verdict
    ensures { says result ≡ shell_for prn f.now }
{
    let own = is_prn(prn) & (prn_of(f) == prn);
    shell_verdict(f, !own)
}
