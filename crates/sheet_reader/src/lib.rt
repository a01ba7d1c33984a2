// The sheet reader: 02, CR 7. It holds the lent sheet and its own place while the rows are walked. Nothing is asked of the bytes.
#![tactic(auto)]

ghost use Rattle.std.specs.Prelude.{◌≡◌};
ghost use Rattle.sheet_reader.specs.Walk.{rows_end, next_says, next_found, place_after};

use row::Row;
use sheet_reading::row_said;

// Where a sheet's first row stands.
pub const FIRST_ROW: u32 = 8;

// A lent sheet, and a place in it.
#[derive(Clone, Copy)]
pub struct SheetReader<'a> {
    pub sheet: &'a [u8],
    pub at: u32,
}

// The place behind the last row that the header counts.
fn rows_end(sheet: &[u8]) -> u32
    ensures { result ≡ rows_end sheet.now }
{
    let rows = lent::two(sheet, 6) as u32;
    FIRST_ROW + 24 * rows
}

// What a reader finds at a place: a row, or none where the rows are over.
fn found_at(sheet: &[u8], at: u32) -> Option<Row>
    ensures { next_says result ≡ next_found sheet.now at }
{
    if rows_end(sheet) <= at {
        return None;
    }
    Some(row_said(sheet, at))
}

// The place of the next row; where no row is left, the same place.
fn place_after(sheet: &[u8], at: u32) -> u32
    ensures { result ≡ place_after sheet.now at }
{
    if at < rows_end(sheet) { at + 24 } else { at }
}

// A reader of a sheet is made, at a place.
pub fn reader_at<'a>(sheet: &'a [u8], at: u32) -> SheetReader<'a>
    ensures { (result.sheet ≡ sheet.entry) × (result.at ≡ at) }
{
    SheetReader { sheet, at }
}

// A reader is asked for the next row.
pub fn next<'a>(r: SheetReader<'a>) -> Option<Row>
    ensures { next_says result ≡ next_found r.entry.sheet.now r.entry.at }
{
    found_at(r.sheet, r.at)
}

// A reader is moved on to the next row.
pub fn moved_on<'a>(r: SheetReader<'a>) -> SheetReader<'a>
    ensures { (result.sheet ≡ r.entry.sheet) × (result.at ≡ place_after r.entry.sheet.now r.entry.at) }
{
    let at = place_after(r.sheet, r.at);
    SheetReader { sheet: r.sheet, at }
}

// The next row for a reader at a place. Who calls this, or `next_place`, need not hold a reader.
pub fn next_row(sheet: &[u8], at: u32) -> Option<Row>
    ensures { next_says result ≡ next_found sheet.now at }
{
    next(reader_at(sheet, at))
}

// Where a reader at a place is once it has moved on.
pub fn next_place(sheet: &[u8], at: u32) -> u32
    ensures { result ≡ place_after sheet.now at }
{
    moved_on(reader_at(sheet, at)).at
}
