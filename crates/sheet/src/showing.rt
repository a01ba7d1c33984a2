// What a sheet says, in lines.
ghost use Rattle.io.specs.Counts.{IsPrefixLen};

use crate::file::ROOM;
use console::put::{cursor_in, put_byte, put_bytes, put_field, put_number};
use row::Row;
use row_lines::{put_head, put_row};
use sheet_form::Header;
use sheet_reader::{FIRST_ROW, next_place, next_row};
use sheet_reading::{Wrong, read_sheet};
use sheet_writing::MOST_ROWS;

// What the header says of the mask.
fn put_mask(room: &mut [u8], at: usize, ssr: u8, iodp: u8) -> usize
    ensures { IsPrefixLen result room.new }
{
    let a = put_field(room, at, b"ssr", u64::from(ssr));
    put_field(room, a, b"iodp", u64::from(iodp))
}

// The line of the header.
fn put_header(room: &mut [u8], h: Header) -> usize
    ensures { IsPrefixLen result room.new }
{
    let a = put_bytes(room, 0, b"prn ");
    let b = put_number(room, a, u64::from(h.prn));
    let c = put_mask(room, b, h.ssr, h.iodp);
    let d = put_field(room, c, b"rows", u64::from(h.rows));
    put_byte(room, d, b'\n')
}

// The line of a row.
fn put_line(room: &mut [u8], at: usize, row: Row) -> usize
    ensures { IsPrefixLen result room.new }
{
    let a = put_row(room, at, b' ', row);
    put_byte(room, a, b'\n')
}

// The lines of a sheet's rows: a reader of the sheet is asked for the next row and moved on, until it is done.
fn put_rows(room: &mut [u8], at: usize, sheet: &[u8]) -> usize
    ensures { IsPrefixLen result room.new }
{
    let mut n = cursor_in(room, at);
    let mut place = FIRST_ROW;
    loop {
        let Some(row) = next_row(sheet, place) else {
            return n;
        };
        n = put_line(room, n, row);
        place = next_place(sheet, place);
    }
}

// The lines of a sheet that is read.
fn put_sheet(room: &mut [u8], sheet: &[u8], h: Header) -> usize
    ensures { IsPrefixLen result room.new }
{
    let a = put_header(room, h);
    let b = put_head(room, a, b' ');
    let c = put_byte(room, b, b'\n');
    put_rows(room, c, sheet)
}

// The line of a sheet that is wrong at an offset.
pub(crate) fn put_wrong(room: &mut [u8], offset: u32) -> usize
    ensures { IsPrefixLen result room.new }
{
    let a = put_bytes(room, 0, b"refused 23");
    let b = put_field(room, a, b"at", u64::from(offset));
    put_byte(room, b, b'\n')
}

// What a sheet says, or where it is wrong.
fn put_read(room: &mut [u8], sheet: &[u8]) -> usize
    ensures { IsPrefixLen result room.new }
{
    match read_sheet(sheet, MOST_ROWS, true) {
        Ok(h) => put_sheet(room, sheet, h),
        Err(Wrong(at)) => put_wrong(room, at),
    }
}

// What a sheet says goes to standard output, in one piece; the answer is the status.
fn write_read(rt: &HostRuntime, sheet: &[u8]) -> u8 {
    let mut room = io::large_buffer();
    let n = put_read(&mut room, sheet);
    if console::out::write(rt, b"sheet", &room[..n]) {
        0
    } else {
        1
    }
}

// The sheet in the file of argument i; the answer is the status.
pub(crate) fn run(rt: &HostRuntime, i: usize) -> u8 {
    let mut sheet = [0u8; ROOM];
    let Some(length) = crate::file::read_arg(rt, i, &mut sheet) else {
        return 1;
    };
    let n = cursor_in(&sheet, length);
    write_read(rt, &sheet[..n])
}
