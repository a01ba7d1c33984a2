// The fields of a sheet, each put into what is left of the room.
#![tactic(auto)]

ghost use Rattle.std.specs.Prelude.{◌≡◌};
ghost use Rattle.bits.specs.Bytes.{store_at};
ghost use Rattle.sheet_form.specs.Layout.{header_field, row_field, end_field};

use flat_numbers::raw32;
use row::Row;
use sheet_form::Header;
use ura::code_of;

// The length of the header's field.
pub const HEADER_SIZE: usize = 8;

// The length of a row's field.
pub const ROW_SIZE: usize = 24;

// The length of the end's field.
pub const END_SIZE: usize = 3;

// The bytes of the header's field.
fn header_bytes(h: Header) -> [u8; HEADER_SIZE]
    ensures { result ≡ header_field h }
{
    let [hi, lo] = h.rows.to_be_bytes();
    [1, 0, 5, h.prn, h.ssr, h.iodp, hi, lo]
}

// The bytes of a row's field.
fn row_bytes(r: Row) -> [u8; ROW_SIZE]
    ensures { result ≡ row_field r }
{
    let slot = r.slot;
    let u = r.ura;
    let [n0, n1] = r.iodn.to_be_bytes();
    let [r0, r1, r2, r3] = raw32(r.radial).to_be_bytes();
    let [a0, a1, a2, a3] = raw32(r.along).to_be_bytes();
    let [c0, c1, c2, c3] = raw32(r.cross).to_be_bytes();
    let [k0, k1, k2, k3] = raw32(r.clock).to_be_bytes();
    let code = code_of(u);
    [
        2, 0, 21, slot.0, n0, n1, r.corr, r0, r1, r2, r3, a0, a1, a2, a3, c0, c1, c2, c3, k0, k1,
        k2, k3, code,
    ]
}

// The header's field is put; bytes past the end are lost.
pub fn put_header(room: &mut [u8], h: Header)
    ensures { room.new ≡ store_at room.old 0 (header_field h) }
{
    lent::store(room, 0, &header_bytes(h));
}

// A row's field is put; bytes past the end are lost.
pub fn put_row(room: &mut [u8], r: Row)
    ensures { room.new ≡ store_at room.old 0 (row_field r) }
{
    lent::store(room, 0, &row_bytes(r));
}

// The end's field is put; bytes past the end are lost.
pub fn put_end(room: &mut [u8])
    ensures { room.new ≡ store_at room.old 0 end_field }
{
    let b: [u8; END_SIZE] = [255, 0, 0];
    lent::store(room, 0, &b);
}
