// The report of each PRN: the counts, the mask in force, the epochs, the list and who is absent from it, and the limits that do not hold.
ghost use Rattle.io.specs.Counts.{IsPrefixLen};

use crate::fit::put_unfit;
use crate::limits::found_in;
use crate::options::Options;
use console::put::cursor_in;
use log_files::accounts::Account;
use log_files::heard::Heard;
use report_lines::counts::put_account;
use report_lines::held::{put_epochs, put_list, put_mask};
use report_lines::subframes::put_subframes;
use table_form::{ROOMS, ledger_for};

// What a PRN's ledger holds, and which limits do not hold for it.
fn put_ledger(
    room: &mut [u8],
    at: usize,
    ledger: &[u8],
    issues: &[u16; 255],
    p: &Account,
    o: Options,
) -> usize
    ensures { IsPrefixLen result room.new }
{
    let f = found_in(p, None, ledger, issues);
    let a = put_mask(room, at, ledger);
    let b = put_epochs(room, a, p.epochs);
    let c = put_list(room, b, ledger, issues, f.rows);
    put_unfit(room, c, f, o)
}

// The report of PRN i, from 0, if there is one; of one PRN and mixed logs with the subframes.
fn put_nth(room: &mut [u8], at: usize, i: usize, heard: &Heard, o: Options) -> usize
    ensures { IsPrefixLen result room.new }
{
    let Some(p) = heard.accounts.nth(i) else {
        return cursor_in(room, at);
    };
    let ledger = ledger_for(&heard.table, p.prn);
    let alone = heard.accounts.count == 1;
    let b = put_account(room, at, &p);
    let c = put_subframes(room, b, heard, o.mixed && alone);
    put_ledger(room, c, ledger, &heard.issues, &p, o)
}

// The reports of all PRNs, in the order given, unless the table stands alone.
pub(crate) fn put_reports(room: &mut [u8], at: usize, heard: &Heard, o: Options) -> usize
    ensures { IsPrefixLen result room.new }
{
    let mut n = cursor_in(room, at);
    if o.csv {
        return n;
    }
    for i in 0..ROOMS {
        n = put_nth(room, n, i, heard, o);
    }
    n
}
