// Contents and rows as bytes at the C boundary: include/quieuvodan.h. Numbers are high byte first; bytes past the end are 0, or lost.
#![tactic(auto)]

ghost use Rattle.std.specs.Prelude.{◌≡◌, ◌<◌, get_or};
ghost use Rattle.bits.specs.Bytes.{store_at};
ghost use Rattle.flat_numbers.specs.Rows.{rows_to};
ghost use Rattle.flat_forms.specs.Write.{flat_clock_bytes, flat_clock_row, flat_orbit_bytes, flat_orbit_row, mask_head, clock_head, orbit_head, flat_mask_bytes, clocks_bytes, orbits_bytes, contents_bytes, system_of, row_bytes};

use contents::parts::{ClockPart, Contents, MaskPart, OrbitPart};
use flat_biases::put_last_parts;
use flat_numbers::{raw16, raw32};
use records::clock::Clock;
use records::orbit::Orbit;
use row::Row;
use slots::System;
use ura::{ura_kind, ura_quarters};

// The byte of a system.
fn system_number(s: System) -> u8
    ensures { result ≡ system_of s }
{
    match s {
        System::Reserved => 0,
        System::BeiDou => 1,
        System::Gps => 2,
        System::Galileo => 3,
        System::Glonass => 4,
    }
}

// The bytes of a clock record.
fn clock_bytes(k: Clock) -> [u8; 5]
    ensures { result ≡ flat_clock_bytes k }
{
    let [s0, s1] = k.slot.to_be_bytes();
    let [z0, z1] = raw16(k.c0).to_be_bytes();
    [s0, s1, k.corr, z0, z1]
}

// The bytes of an orbit record.
fn orbit_bytes(o: Orbit) -> [u8; 16]
    ensures { result ≡ flat_orbit_bytes o }
{
    let [s0, s1] = o.slot.to_be_bytes();
    let [n0, n1] = o.iodn.to_be_bytes();
    let [r0, r1] = raw16(o.radial).to_be_bytes();
    let [a0, a1] = raw16(o.along).to_be_bytes();
    let [c0, c1] = raw16(o.cross).to_be_bytes();
    let k = ura_kind(o.ura);
    let [q0, q1, q2, q3] = ura_quarters(o.ura).to_be_bytes();
    [
        s0, s1, n0, n1, o.corr, r0, r1, a0, a1, c0, c1, k, q0, q1, q2, q3,
    ]
}

// The type and the head of the mask part.
fn mask_head(kind: u8, epoch: u32, ssr: u8, iodp: u8) -> [u8; 7]
    ensures { result ≡ mask_head kind epoch ssr iodp }
{
    let [e0, e1, e2, e3] = epoch.to_be_bytes();
    [kind, e0, e1, e2, e3, ssr, iodp]
}

// The head of the clock part.
fn clock_head(epoch: u32, ssr: u8, iodp: u8, start: u16, count: u8) -> [u8; 9]
    ensures { result ≡ clock_head epoch ssr iodp start count }
{
    let [e0, e1, e2, e3] = epoch.to_be_bytes();
    let [s0, s1] = start.to_be_bytes();
    [e0, e1, e2, e3, ssr, iodp, s0, s1, count]
}

// The head of the orbit part.
fn orbit_head(epoch: u32, ssr: u8, count: u8) -> [u8; 6]
    ensures { result ≡ orbit_head epoch ssr count }
{
    let [e0, e1, e2, e3] = epoch.to_be_bytes();
    [e0, e1, e2, e3, ssr, count]
}

// The clock records are put.
fn put_clocks(room: &mut [u8], ks: &[Clock; 23])
    ensures { room.new ≡ store_at room.old 48 (rows_to (flat_clock_row ks.now) 23) }
{
    for (i, k) in ks.iter().enumerate() {
        lent::store(room, 48 + 5 * i, &clock_bytes(*k));
    }
}

// The orbit records are put.
fn put_orbits(room: &mut [u8], os: &[Orbit; 6])
    ensures { room.new ≡ store_at room.old 169 (rows_to (flat_orbit_row os.now) 6) }
{
    for (i, o) in os.iter().enumerate() {
        lent::store(room, 169 + 16 * i, &orbit_bytes(*o));
    }
}

// The type and the mask part are put.
fn put_mask_part(room: &mut [u8], kind: u8, m: MaskPart)
    ensures { room.new ≡ store_at room.old 0 (flat_mask_bytes kind m) }
{
    let head = mask_head(kind, m.epoch, m.ssr, m.iodp);
    lent::store(room, 0, &head);
    lent::store(room, 7, &m.bytes);
}

// The clock part is put.
fn put_clock_part(room: &mut [u8], p: ClockPart)
    ensures { room.new ≡ store_at room.old 39 (clocks_bytes p) }
{
    let head = clock_head(p.epoch, p.ssr, p.iodp, p.start, p.count);
    lent::store(room, 39, &head);
    put_clocks(room, &p.clocks);
}

// The orbit part is put.
fn put_orbit_part(room: &mut [u8], p: OrbitPart)
    ensures { room.new ≡ store_at room.old 163 (orbits_bytes p) }
{
    let head = orbit_head(p.epoch, p.ssr, p.count);
    lent::store(room, 163, &head);
    put_orbits(room, &p.orbits);
}

// The bytes of contents are put from the room's first byte on; those past its end are lost.
pub fn put_contents(room: &mut [u8], c: Contents)
    ensures { room.new ≡ store_at room.old 0 (contents_bytes c) }
{
    put_mask_part(room, c.kind, c.mask);
    put_clock_part(room, c.clock);
    put_orbit_part(room, c.orbit);
    put_last_parts(room, c.bias, c.code);
}

// The bytes of a row.
fn row_bytes(r: Row) -> [u8; 27]
    ensures { result ≡ row_bytes r }
{
    let s = system_number(r.system);
    let [n0, n1] = r.iodn.to_be_bytes();
    let [r0, r1, r2, r3] = raw32(r.radial).to_be_bytes();
    let [a0, a1, a2, a3] = raw32(r.along).to_be_bytes();
    let [c0, c1, c2, c3] = raw32(r.cross).to_be_bytes();
    let [k0, k1, k2, k3] = raw32(r.clock).to_be_bytes();
    let u = ura_kind(r.ura);
    let [q0, q1, q2, q3] = ura_quarters(r.ura).to_be_bytes();
    [
        r.slot.0, s, r.number, n0, n1, r.corr, r0, r1, r2, r3, a0, a1, a2, a3, c0, c1, c2, c3, k0,
        k1, k2, k3, u, q0, q1, q2, q3,
    ]
}

// The bytes of a row are put from byte at on; those past the end are lost.
pub fn put_row(room: &mut [u8], at: usize, r: Row)
    ensures { room.new ≡ store_at room.old at (row_bytes r) }
{
    lent::store(room, at, &row_bytes(r));
}
