// What one frame does under the mask in force: whether clocks or codes by place are refused (14, 15, 19), and how records are kept.
#![tactic(auto)]

ghost use Rattle.std.specs.Prelude.{◌≡◌, Err};
ghost use Rattle.verdict.specs.Verdict.{says, refused_says, refused_by};
ghost use Rattle.held_mask.specs.Mask.{mask_at};
ghost use Rattle.places.specs.Keeps.{held_orbit, held_clock, needs_mask, as_place, first_place, other_mask, place_to_check, place_number, place_refusal, place_says, first_code, code_refusal};

use contents::parts::ClockPart;
use held_clocks::HeldClock;
use held_orbits::HeldOrbit;
use records::clock::Clock;
use records::orbit::Orbit;
use slots::Place;
use ura_codes::CodePart;
use verdict::{Refusal, Refused, Verdict};

// Whether the clock records go by places in the mask.
pub fn needs_mask(kind: u8, p: ClockPart) -> bool
    ensures { result ≡ needs_mask kind p }
{
    kind == 4 || (kind == 6 && p.count > 0)
}

// A number as a place. What 16 bits do not hold is 65535: no satellite has the one or the other.
fn as_place(n: u32) -> Place
    ensures { result.0 ≡ as_place n }
{
    Place(n.min(65535) as u16)
}

// The place of the first clock record.
pub fn first_place(kind: u8, p: ClockPart) -> Place
    ensures { result.0 ≡ as_place (first_place kind p) }
{
    if kind == 4 {
        as_place(23 * (p.start as u32) + 1)
    } else {
        Place(p.start)
    }
}

// The place that must lie within the mask: type 4's first, type 6's last.
fn place_to_check(kind: u8, p: ClockPart) -> Place
    ensures { result.0 ≡ as_place (place_to_check kind p) }
{
    if kind == 4 {
        return as_place(23 * (p.start as u32) + 1);
    }
    let end = p.start as u32 + p.count as u32;
    if end == 0 {
        return Place(0);
    }
    as_place(end - 1)
}

// Whether no mask is held, or one of another IOD SSR or IODP.
fn is_other_mask(t: &[u8], ssr: u8, iodp: u8) -> bool
    ensures { result ≡ other_mask (mask_at t.now) ssr iodp }
{
    let has = held_mask::has_mask(t);
    !(has & (held_mask::mask_ssr(t) == ssr) & (held_mask::mask_iodp(t) == iodp))
}

// Why a place that no satellite has is refused: 15 in type 4, else 19, which gives the number of places too.
fn no_place(t: &[u8], kind: u8) -> Refusal
    ensures { says (Err result) ≡ place_says (mask_at t.now) (place_number kind) }
{
    if kind == 4 {
        Refusal::Number(15)
    } else {
        Refusal::Places(mask_counts::set_count(t))
    }
}

// The verdict on clocks by place under the mask held: 14, 15 or 19, or taken.
pub fn place_verdict(t: &[u8], kind: u8, p: ClockPart) -> Verdict
    ensures { says result ≡ place_says (mask_at t.now) (place_refusal (mask_at t.now) kind p) }
{
    if !needs_mask(kind, p) {
        return Ok(());
    }
    if is_other_mask(t, p.ssr, p.iodp) {
        return Err(Refusal::Number(14));
    }
    if mask_counts::is_past_last(t, place_to_check(kind, p)) {
        return Err(no_place(t, kind));
    }
    Ok(())
}

// The place of the first code of a type 5.
pub fn first_code(u: CodePart) -> Place
    ensures { result.0 ≡ first_code u }
{
    Place(70 * (u.sub as u16) + 1)
}

// Why the codes of a type 5 are refused under the mask held: 14 or 15, if they are.
pub fn code_refusal(t: &[u8], u: CodePart) -> Result<(), Refused>
    ensures { refused_says result ≡ refused_by (code_refusal (mask_at t.now) u) }
{
    if is_other_mask(t, u.ssr, u.iodp) {
        return Err(Refused(14));
    }
    if mask_counts::is_past_last(t, first_code(u)) {
        return Err(Refused(15));
    }
    Ok(())
}

// A clock record as it is kept.
pub fn held_clock(placed: bool, epoch: u32, ssr: u8, k: Clock) -> HeldClock
    ensures { result ≡ held_clock placed epoch ssr k }
{
    HeldClock {
        has: true,
        placed,
        epoch,
        ssr,
        corr: k.corr,
        c0: k.c0,
    }
}

// An orbit record as it is kept.
pub fn held_orbit(epoch: u32, ssr: u8, o: Orbit) -> HeldOrbit
    ensures { result ≡ held_orbit epoch ssr o }
{
    let ura = o.ura;
    HeldOrbit {
        has: true,
        epoch,
        ssr,
        iodn: o.iodn,
        corr: o.corr,
        radial: o.radial,
        along: o.along,
        cross: o.cross,
        ura,
    }
}
