// What is said of pieces: how many there were, were taken, and were refused with each number.
ghost use Rattle.io.specs.Counts.{IsPrefixLen};

use console::put::{cursor_in, put_byte, put_bytes, put_text};
use console::refusals::put_refusal;
use log_files::accounts::Account;
use tally::TALLY_SIZE;

// The line of a number under a word.
pub fn put_count(room: &mut [u8], at: usize, word: &[u8], n: u64) -> usize
    ensures { IsPrefixLen result room.new }
{
    let a = put_bytes(room, at, word);
    put_text(room, a, b" #\n", &[n])
}

// Frames refused, by how many there are and how many were taken.
pub fn refused_of(all: u64, taken: u64) -> u64 {
    all.saturating_sub(taken)
}

// The line of how many pieces there were, and how many of them were taken.
pub fn put_frames(room: &mut [u8], at: usize, all: u64, taken: u64) -> usize
    ensures { IsPrefixLen result room.new }
{
    let numbers = [all, taken, refused_of(all, taken)];
    put_text(room, at, b"frames # taken # refused #\n", &numbers)
}

// The line of a refusal that occurred.
pub fn put_times(room: &mut [u8], at: usize, number: u8, times: u64) -> usize
    ensures { IsPrefixLen result room.new }
{
    if times == 0 {
        return cursor_in(room, at);
    }
    let numbers = [u64::from(number), times];
    let a = put_text(room, at, b"refusal # # ", &numbers);
    let b = put_refusal(room, a, number);
    put_byte(room, b, b'\n')
}

// The lines of the refusals that occurred, rising, by the tally.
pub fn put_tally(room: &mut [u8], at: usize, tally: &[u8; TALLY_SIZE]) -> usize
    ensures { IsPrefixLen result room.new }
{
    let mut n = cursor_in(room, at);
    for i in 1..40u8 {
        let times = lent::four(tally, 4 * usize::from(i));
        n = put_times(room, n, i, u64::from(times));
    }
    n
}

// The lines of the refusals that occurred, rising, of pieces of a PRN.
fn put_refusals(room: &mut [u8], at: usize, refused: &[u64; 20]) -> usize
    ensures { IsPrefixLen result room.new }
{
    let mut n = cursor_in(room, at);
    for i in 1..20u8 {
        n = put_times(room, n, i, refused[usize::from(i)]);
    }
    n
}

// What was counted of a PRN.
pub fn put_account(room: &mut [u8], at: usize, a: &Account) -> usize
    ensures { IsPrefixLen result room.new }
{
    let b = put_count(room, at, b"prn", u64::from(a.prn));
    let c = put_frames(room, b, a.all, a.taken);
    put_refusals(room, c, &a.refused)
}
