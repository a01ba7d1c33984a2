// The table of the rows alone, with commas.
ghost use Rattle.io.specs.Counts.{IsPrefixLen};

use console::put::{cursor_in, put_bytes};
use log_files::accounts::Accounts;
use log_files::heard::Heard;
use report_lines::rows::{put_head, put_lines};
use table_form::{ROOMS, ledger_for};

// The PRN that lines name: of one PRN none.
pub(crate) fn named(a: &Accounts, prn: u8) -> Option<u8> {
    if a.count == 1 { None } else { Some(prn) }
}

// The head; of several PRNs with their column.
fn put_first(room: &mut [u8], at: usize, count: u8) -> usize
    ensures { IsPrefixLen result room.new }
{
    if count == 1 {
        return put_head(room, at, b',');
    }
    let a = put_bytes(room, at, b"prn,");
    put_head(room, a, b',')
}

// The rows of PRN i, from 0, if there is one.
fn put_nth(room: &mut [u8], at: usize, i: usize, heard: &Heard) -> usize
    ensures { IsPrefixLen result room.new }
{
    let Some(p) = heard.accounts.nth(i) else {
        return cursor_in(room, at);
    };
    let ledger = ledger_for(&heard.table, p.prn);
    let prn = named(&heard.accounts, p.prn);
    put_lines(room, at, b',', prn, ledger, &heard.issues)
}

// The table, with the rows of all PRNs in the order given.
fn put_table(room: &mut [u8], at: usize, heard: &Heard) -> usize
    ensures { IsPrefixLen result room.new }
{
    let mut n = put_first(room, at, heard.accounts.count);
    for i in 0..ROOMS {
        n = put_nth(room, n, i, heard);
    }
    n
}

// The table, if it is asked for.
pub(crate) fn put_csv(room: &mut [u8], at: usize, heard: &Heard, asked: bool) -> usize
    ensures { IsPrefixLen result room.new }
{
    if asked {
        put_table(room, at, heard)
    } else {
        cursor_in(room, at)
    }
}
