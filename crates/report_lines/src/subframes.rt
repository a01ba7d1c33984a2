// What a report says of mixed logs: the subframes of each kind, and the lines.
ghost use Rattle.io.specs.Counts.{IsPrefixLen};

use crate::counts::refused_of;
use console::put::{cursor_in, put_bytes, put_text};
use log_files::heard::{Counts, Heard};

// The line of a refusal of subframes of a kind that occurred.
fn put_times(room: &mut [u8], at: usize, kind: &[u8], number: u64, times: u64) -> usize
    ensures { IsPrefixLen result room.new }
{
    if times == 0 {
        return cursor_in(room, at);
    }
    let numbers = [number, times];
    let a = put_bytes(room, at, kind);
    put_text(room, a, b"-refusal # #\n", &numbers)
}

// The lines of the refusals of subframes of a kind that occurred, rising.
fn put_refusals(room: &mut [u8], at: usize, kind: &[u8], counts: &Counts) -> usize
    ensures { IsPrefixLen result room.new }
{
    let mut n = cursor_in(room, at);
    for i in 1..40 {
        n = put_times(room, n, kind, i as u64, counts.times[i]);
    }
    n
}

// The lines of the subframes of a kind; the text is that of the first.
fn put_counts(room: &mut [u8], at: usize, kind: &[u8], text: &[u8], counts: &Counts) -> usize
    ensures { IsPrefixLen result room.new }
{
    let taken = counts.times[0];
    let numbers = [counts.all, taken, refused_of(counts.all, taken)];
    let a = put_text(room, at, text, &numbers);
    put_refusals(room, a, kind, counts)
}

// What the report of mixed logs says besides.
pub fn put_subframes(room: &mut [u8], at: usize, heard: &Heard, mixed: bool) -> usize
    ensures { IsPrefixLen result room.new }
{
    if !mixed {
        return cursor_in(room, at);
    }
    let numbers = [heard.lines, heard.bad];
    let a = put_counts(
        room,
        at,
        b"cnav1",
        b"cnav1 # joined # refused #\n",
        &heard.cnav1,
    );
    let b = put_counts(room, a, b"d1", b"d1 # read # refused #\n", &heard.d1);
    put_text(room, b, b"lines # bad #\n", &numbers)
}
