// The parts of a line.
use crate::fields::{bare_clock, orbit, slot_clock};
use crate::lists::{List, codes, records, sats, slots};
use crate::reader::{CLOCK, Fault, ORBIT, Reader, SLOT_CLOCK};
use biases::BiasPart;
use contents::parts::{ClockPart, MaskPart, OrbitPart, no_clocks, no_orbits};
use records::clock::{Clock, blank_clock};
use records::orbit::{Orbit, blank_orbit};
use ura_codes::CodePart;

// Epoch and IOD SSR, after their keys.
fn epoch_and_ssr(
    r: &mut Reader,
    epoch: &'static [u8],
    ssr: &'static [u8],
) -> Result<(u32, u8), Fault> {
    let epoch = r.field(epoch)?;
    let ssr = r.byte(ssr)?;
    Ok((epoch, ssr))
}

// The mask part of type 1.
pub(crate) fn mask_part(r: &mut Reader) -> Result<MaskPart, Fault> {
    let (epoch, ssr) = epoch_and_ssr(r, b"epoch", b"ssr")?;
    let iodp = r.byte(b"iodp")?;
    let bytes = slots(r)?;
    Ok(MaskPart {
        epoch,
        ssr,
        iodp,
        bytes,
    })
}

// The bias part of type 3.
pub(crate) fn bias_part(r: &mut Reader) -> Result<BiasPart, Fault> {
    let (epoch, ssr) = epoch_and_ssr(r, b"epoch", b"ssr")?;
    let (List { count, records }, biases) = sats(r)?;
    Ok(BiasPart {
        epoch,
        ssr,
        count,
        sats: records,
        biases,
    })
}

// IODP, and the sub-type or the first place after its key.
fn iodp_and_start(r: &mut Reader, start: &'static [u8]) -> Result<(u8, u16), Fault> {
    let iodp = r.byte(b"iodp")?;
    let start = r.short(start)?;
    Ok((iodp, start))
}

// Clocks without slots, after their key: so many at least and at most.
fn bare_clocks(r: &mut Reader, least: u8, most: u8) -> Result<List<Clock, 23>, Fault> {
    r.key(b"clocks")?;
    records(r, least, most, blank_clock(), CLOCK, bare_clock)
}

// Clocks with their slots, after their key.
fn slot_clocks(r: &mut Reader) -> Result<List<Clock, 23>, Fault> {
    r.key(b"clocks")?;
    records(r, 1, 255, blank_clock(), SLOT_CLOCK, slot_clock)
}

// The clock part of types 4 and 6: its keys for epoch, IOD SSR and the sub-type or the first place, then so many records at least and at most.
pub(crate) fn clock_part(
    r: &mut Reader,
    epoch: &'static [u8],
    ssr: &'static [u8],
    start: &'static [u8],
    least: u8,
    most: u8,
) -> Result<ClockPart, Fault> {
    let (epoch, ssr) = epoch_and_ssr(r, epoch, ssr)?;
    let (iodp, start) = iodp_and_start(r, start)?;
    let List { count, records } = bare_clocks(r, least, most)?;
    Ok(ClockPart {
        epoch,
        ssr,
        iodp,
        start,
        count,
        clocks: records,
    })
}

// The code part of type 5.
pub(crate) fn code_part(r: &mut Reader) -> Result<CodePart, Fault> {
    let (epoch, ssr) = epoch_and_ssr(r, b"epoch", b"ssr")?;
    let iodp = r.byte(b"iodp")?;
    let sub = r.byte(b"sub")?;
    let codes = codes(r)?;
    Ok(CodePart {
        epoch,
        ssr,
        iodp,
        sub,
        codes,
    })
}

// Orbits, after their key: so many at least and at most.
fn orbits(r: &mut Reader, least: u8, most: u8) -> Result<List<Orbit, 6>, Fault> {
    r.key(b"orbits")?;
    records(r, least, most, blank_orbit(), ORBIT, orbit)
}

// The orbit part: its keys for epoch and IOD SSR, then so many records at least and at most.
pub(crate) fn orbit_part(
    r: &mut Reader,
    epoch: &'static [u8],
    ssr: &'static [u8],
    least: u8,
    most: u8,
) -> Result<OrbitPart, Fault> {
    let (epoch, ssr) = epoch_and_ssr(r, epoch, ssr)?;
    let List { count, records } = orbits(r, least, most)?;
    Ok(OrbitPart {
        epoch,
        ssr,
        count,
        orbits: records,
    })
}

// The clock part of type 6, if there is one.
pub(crate) fn first_clocks(r: &mut Reader) -> Result<ClockPart, Fault> {
    if r.next() != b"clock-epoch".as_slice() {
        return Ok(no_clocks());
    }
    clock_part(r, b"clock-epoch", b"clock-ssr", b"from", 1, 255)
}

// Epoch, IOD SSR and clocks of a type 7: each record has its slot, and there is neither IODP nor a first place.
fn slotted_part(r: &mut Reader) -> Result<ClockPart, Fault> {
    let (epoch, ssr) = epoch_and_ssr(r, b"clock-epoch", b"clock-ssr")?;
    let List { count, records } = slot_clocks(r)?;
    Ok(ClockPart {
        epoch,
        ssr,
        iodp: 0,
        start: 0,
        count,
        clocks: records,
    })
}

// The clock part of type 7, if there is one.
pub(crate) fn slotted_clocks(r: &mut Reader) -> Result<ClockPart, Fault> {
    if r.next() != b"clock-epoch".as_slice() {
        return Ok(no_clocks());
    }
    slotted_part(r)
}

// The orbit part of types 6 and 7, if there is one.
pub(crate) fn maybe_orbits(r: &mut Reader) -> Result<OrbitPart, Fault> {
    if r.next() != b"orbit-epoch".as_slice() {
        return Ok(no_orbits());
    }
    orbit_part(r, b"orbit-epoch", b"orbit-ssr", 1, 255)
}
