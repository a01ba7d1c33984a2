// Writing messages into a lent room of 61 bytes, by the rules of reading.
#![tactic(auto)]

ghost use Rattle.std.specs.Prelude.{◌≡◌, ◌+◌, ◌<◌, ◌≤◌, length};
ghost use Rattle.bits.specs.Bits.{bit_at, put_rows};
ghost use Rattle.records.specs.Orbit.{orbit_widths};
ghost use Rattle.records.specs.Clock.{clock_widths};
ghost use Rattle.verdict.specs.Verdict.{says, refused_says, refused_by};
ghost use Rattle.fitting.specs.Fits.{eight, fits, all_fit};
ghost use Rattle.writing.specs.Fits.{clock_vals, orbit_vals, clock_row, orbit_row, parts_fit, last_fit, fits_all};
ghost use Rattle.writing.specs.Write.{head_put, mask_widths, mask_row, mask_put, clocks_put, orbits_put, bias_put, code_put, parts_put, check_put, message_of, end_for, content_refusal, write_refusal, written};

use bias_writing::{biases_fit, put_biases};
use biases::BiasPart;
use canonical_biases::written_end;
use code_writing::{codes_fit, put_codes};
use contents::parts::{ClockPart, Contents, MaskPart, OrbitPart};
use fitting::{head_fits, put_part_head, raw_or, row_fits};
use layout::{Layout, end_of, layout_of, orbits_from};
use records::clock::Clock;
use records::orbit::Orbit;
use ura_codes::CodePart;
use verdict::{Refusal, Refused, Verdict};

// The widths of a clock record's fields.
fn clock_widths(slotted: bool) -> [u8; 8]
    ensures { result ≡ eight (clock_widths slotted) }
{
    if slotted {
        [9, 3, 15, 0, 0, 0, 0, 0]
    } else {
        [0, 3, 15, 0, 0, 0, 0, 0]
    }
}

// The values of a clock record's fields.
fn clock_vals(k: Clock) -> [u64; 8]
    ensures { result ≡ eight (clock_vals k) }
{
    let c0 = raw_or(k.c0, 16384);
    [k.slot as u64, k.corr as u64, c0, 0, 0, 0, 0, 0]
}

// The widths of an orbit record's fields.
fn orbit_widths() -> [u8; 8]
    ensures { result ≡ orbit_widths }
{
    [9, 10, 3, 15, 13, 13, 3, 3]
}

// The values of an orbit record's fields.
fn orbit_vals(o: Orbit) -> [u64; 8]
    ensures { result ≡ orbit_vals o }
{
    let ura = o.ura;
    let code = ura::code_of(ura);
    let radial = raw_or(o.radial, 16384);
    let along = raw_or(o.along, 4096);
    let cross = raw_or(o.cross, 4096);
    [
        o.slot as u64,
        o.iodn as u64,
        o.corr as u64,
        radial,
        along,
        cross,
        (code / 8) as u64,
        (code % 8) as u64,
    ]
}

// Whether the fields of a clock record are within their widths.
fn clock_fits(slotted: bool, k: Clock) -> bool
    ensures { result ≡ fits (clock_widths slotted) (clock_vals k) }
{
    row_fits(clock_widths(slotted), clock_vals(k))
}

// Whether the fields of an orbit record are within their widths.
fn orbit_fits(o: Orbit) -> bool
    ensures { result ≡ fits orbit_widths (orbit_vals o) }
{
    row_fits(orbit_widths(), orbit_vals(o))
}

// Whether the fields of each clock record are within their widths.
fn clocks_fit(slotted: bool, ks: &[Clock; 23]) -> bool
    ensures { result ≡ all_fit (clock_widths slotted) (clock_row ks.now) 23 }
{
    ks.iter().all(|k| clock_fits(slotted, *k))
}

// Whether the fields of each orbit record are within their widths.
fn orbits_fit(os: &[Orbit; 6]) -> bool
    ensures { result ≡ all_fit orbit_widths (orbit_row os.now) 6 }
{
    os.iter().all(|o| orbit_fits(*o))
}

// Whether every field of the mask, the clocks and the orbits is within its width.
fn parts_fit(c: Contents) -> bool
    ensures { result ≡ parts_fit c }
{
    let m = c.mask;
    let k = c.clock;
    let o = c.orbit;
    let l = layout_of(c.kind, k.count, o.count);
    let a = head_fits(4, 0, m.epoch, m.ssr, m.iodp, 0);
    let b = head_fits(l.iodp, l.start, k.epoch, k.ssr, k.iodp, k.start);
    let d = head_fits(0, 0, o.epoch, o.ssr, 0, 0);
    let e = clocks_fit(l.slotted, &k.clocks);
    let f = orbits_fit(&o.orbits);
    let g = mask_bit(&m.bytes, 255) == 0;
    a & b & d & e & f & g
}

// Whether the biases of a type 3, or the URA codes of a type 5, are within their widths; of another type they are not looked at.
fn last_parts_fit(kind: u8, b: BiasPart, u: CodePart) -> bool
    ensures { result ≡ last_fit kind b u }
{
    if kind == 3 {
        return biases_fit(b);
    }
    if kind == 5 {
        return codes_fit(u);
    }
    true
}

// Whether every field of contents is within its width.
fn all_fields_fit(c: Contents) -> bool
    ensures { result ≡ fits_all c }
{
    parts_fit(c) && last_parts_fit(c.kind, c.bias, c.code)
}

// Where the parts of canonical contents would end, as written.
fn end_for(c: Contents) -> u32
    ensures { result ≡ end_for c }
{
    let b = c.bias;
    if c.kind == 3 {
        return written_end(6, b);
    }
    let k = c.clock;
    let o = c.orbit;
    end_of(layout_of(c.kind, k.count, o.count))
}

// The lowest number of 8 to 12 and 16 that applies to canonical contents, if one does.
fn content_refusal(c: Contents) -> Result<(), Refused>
    ensures { refused_says result ≡ refused_by (content_refusal c) }
{
    judging::refusal_of(end_for(c), c)?;
    if all_fields_fit(c) {
        Ok(())
    } else {
        Err(Refused(16))
    }
}

// The type and, in types 6 and 7, the counts are put.
fn put_head(room: &mut [u8], kind: u8, l: Layout)
    ensures { room.new ≡ head_put room.old kind l }
{
    let wide: u8 = if l.head == 14 { 1 } else { 0 };
    let ws = [6, 5 * wide, 3 * wide, 0, 0, 0, 0, 0];
    let vs = [kind as u64, l.clocks as u64, l.orbits as u64, 0, 0, 0, 0, 0];
    put_bits::puts(room, 0, ws, vs);
}

// Bit i of a mask's 32 bytes, from 0.
fn mask_bit(bytes: &[u8; 32], i: u32) -> u64
    ensures { result ≡ bit_at bytes.now i }
{
    bits::bit(bytes, i as usize) as u64
}

// The mask's bits are put from bit at on.
fn put_mask_bits(room: &mut [u8], at: u32, bytes: &[u8; 32])
    requires { at < 100000 }
    ensures { room.new ≡ put_rows room.old at mask_widths (mask_row bytes.now) 255 }
{
    for i in 0..255 {
        put_bits::put(room, (at + i) as usize, 1, mask_bit(bytes, i));
    }
}

// The mask part is put where the type has one.
fn put_mask(room: &mut [u8], l: Layout, m: MaskPart)
    ensures { room.new ≡ mask_put room.old l m }
{
    if l.mask {
        let at = l.head as u32;
        put_part_head(room, at, 4, 0, m.epoch, m.ssr, m.iodp, 0);
        put_mask_bits(room, at + 27, &m.bytes);
    }
}

// The first n clock records are put in a row from bit at on.
fn put_clock_rows(room: &mut [u8], at: u32, slotted: bool, ks: &[Clock; 23], n: u8)
    requires { (at < 100000) × (n ≤ 23) }
    ensures { room.new ≡ put_rows room.old at (clock_widths slotted) (clock_row ks.now) n }
{
    let ws = clock_widths(slotted);
    let each: u32 = if slotted { 27 } else { 18 };
    for i in 0..n as u32 {
        put_bits::puts(room, at + each * i, ws, clock_vals(ks[i as usize]));
    }
}

// The clock part is put where there is one.
fn put_clocks(room: &mut [u8], l: Layout, k: ClockPart)
    requires { (l.clocks ≤ 23) × (l.iodp ≤ 4) × (l.start ≤ 9) }
    ensures { room.new ≡ clocks_put room.old l k }
{
    let n = l.clocks;
    let at = l.head as u32;
    let from = at + (23 + l.iodp as u32 + l.start as u32);
    if n != 0 {
        put_part_head(room, at, l.iodp, l.start, k.epoch, k.ssr, k.iodp, k.start);
        put_clock_rows(room, from, l.slotted, &k.clocks, n);
    }
}

// The first n orbit records are put in a row from bit at on.
fn put_orbit_rows(room: &mut [u8], at: u32, os: &[Orbit; 6], n: u8)
    requires { (at < 100000) × (n ≤ 6) }
    ensures { room.new ≡ put_rows room.old at orbit_widths (orbit_row os.now) n }
{
    for i in 0..n as u32 {
        put_bits::puts(
            room,
            at + 69 * i,
            orbit_widths(),
            orbit_vals(os[i as usize]),
        );
    }
}

// The orbit part is put where there is one.
fn put_orbits(room: &mut [u8], l: Layout, o: OrbitPart)
    requires { (l.orbits ≤ 6) × (l.clocks ≤ 23) × (l.iodp ≤ 4) × (l.start ≤ 9) }
    ensures { room.new ≡ orbits_put room.old l o }
{
    let n = l.orbits;
    let at = orbits_from(l);
    if n != 0 {
        put_part_head(room, at, 0, 0, o.epoch, o.ssr, 0, 0);
        put_orbit_rows(room, at + 23, &o.orbits, n);
    }
}

// The biases are put where the type is 3.
fn put_bias_part(room: &mut [u8], kind: u8, b: BiasPart)
    ensures { room.new ≡ bias_put room.old kind b }
{
    if kind == 3 {
        put_biases(room, 6, b);
    }
}

// The URA codes are put where the type is 5.
fn put_code_part(room: &mut [u8], kind: u8, u: CodePart)
    ensures { room.new ≡ code_put room.old kind u }
{
    if kind == 5 {
        put_codes(room, 6, u);
    }
}

// The type, the counts and the parts are put.
fn put_parts(room: &mut [u8], c: Contents, l: Layout)
    requires { (l.orbits ≤ 6) × (l.clocks ≤ 23) × (l.iodp ≤ 4) × (l.start ≤ 9) }
    ensures { room.new ≡ parts_put room.old c l }
{
    put_head(room, c.kind, l);
    put_mask(room, l, c.mask);
    put_clocks(room, l, c.clock);
    put_orbits(room, l, c.orbit);
    put_bias_part(room, c.kind, c.bias);
    put_code_part(room, c.kind, c.code);
}

// The check bits of the first 462 bits are put after them.
fn put_check(room: &mut [u8])
    ensures { room.new ≡ check_put room.old }
{
    let check = check24::check(room, 0, 462);
    put_bits::put(room, 462, 24, check as u64);
}

// The message is put into a room of 61 bytes: contents that no refusal applies to.
fn put_message(room: &mut [u8], c: Contents)
    requires { (content_refusal c ≡ 0) × (length room.old ≡ 61) }
    ensures { room.new ≡ message_of c }
{
    let k = c.clock;
    let o = c.orbit;
    let l = layout_of(c.kind, k.count, o.count);
    lent::clear(room);
    put_parts(room, c, l);
    put_check(room);
}

// A message is written into a lent room: refusals 1, 8 to 12, 16, lowest first. On a refusal the room is as it was.
// Always in line: as a call it takes 1.7 times the stack.
#[inline(always)]
pub fn write(room: &mut [u8], c: Contents) -> Verdict
    ensures verdict { says result ≡ refused_by (write_refusal room.old c) }
    ensures bytes { room.new ≡ written room.old c }
{
    if room.len() != 61 {
        return Err(Refusal::Number(1));
    }
    let k = canonical::canonical(c);
    content_refusal(k)?;
    put_message(room, k);
    Ok(())
}
