// What a sheet says put into lent room as bytes, its header and its rows: the call qvd_read_sheet.
#![tactic(auto)]

ghost use Rattle.std.specs.Prelude.{◌≡◌};
ghost use Rattle.bits.specs.Bytes.{store_at};
ghost use Rattle.sheet_form.specs.Reading.{rows_said_from};
ghost use Rattle.row_calls.specs.Rows.{rows_bytes};
ghost use Rattle.sheet_calls.specs.Sheet.{header_bytes, read_sheet_answer, read_sheet_header, read_sheet_rows};

use answers::{ROW_SIZE, ROWS_SIZE};
use flat_forms::put_row;
use sheet_form::Header;
use sheet_reading::{Wrong, read_sheet, row_said};
use sheet_writing::MOST_ROWS;

// The bytes of what a sheet's header says.
const SHEET_HEADER_SIZE: usize = 5;

// What a header says is put.
fn put_header(room: &mut [u8], h: Header)
    ensures { room.new ≡ store_at room.old 0 (header_bytes h) }
{
    let hi = (h.rows / 256) as u8;
    let lo = (h.rows % 256) as u8;
    let b: [u8; SHEET_HEADER_SIZE] = [h.prn, h.ssr, h.iodp, hi, lo];
    lent::store(room, 0, &b);
}

// What the n rows of a sheet say is put, one after the other.
fn put_rows(rows: &mut [u8], sheet: &[u8], n: u16)
    ensures { rows.new ≡ store_at rows.old 0 (rows_bytes (rows_said_from sheet.now n 8)) }
{
    let mut at: u32 = 8;
    let mut k: usize = 0;
    let mut left = n;
    while 0 < left {
        let r = row_said(sheet, at);
        put_row(rows, k, r);
        at += 24;
        k += ROW_SIZE;
        left -= 1;
    }
}

// What a sheet says: its header, and its rows with zeros after them; on a refusal both rooms are as they were. 23 with its offset, 39.
pub fn read_into(sheet: &[u8], header: &mut [u8], rows: &mut [u8]) -> u32
    ensures answer { result ≡ read_sheet_answer sheet.now header.old rows.old }
    ensures header { header.new ≡ read_sheet_header sheet.now header.old rows.old }
    ensures rows { rows.new ≡ read_sheet_rows sheet.now header.old rows.old }
{
    if header.len() != SHEET_HEADER_SIZE {
        return 39;
    }
    if rows.len() != ROWS_SIZE {
        return 39;
    }
    let a = read_sheet(sheet, MOST_ROWS, true);
    match a {
        Err(Wrong(at)) => 23 + 256 * at,
        Ok(h) => {
            put_header(header, h);
            lent::clear(rows);
            put_rows(rows, sheet, h.rows);
            0
        }
    }
}
