// Whether the limits hold for each PRN.
use crate::csv::named;
use crate::fit::{Found, is_unfit, oldest, put_unfit};
use crate::options::Options;
use log_files::accounts::Account;
use log_files::heard::Heard;
use report_lines::counts::refused_of;
use table_form::{ROOMS, ledger_for};

// How many rows there are.
fn row_count(ledger: &[u8], issues: &[u16; 255]) -> u32 {
    match list::rows::row_count(ledger, issues) {
        Ok(n) => u32::from(n),
        Err(_) => 0,
    }
}

// What the limits are held against, of the account of a PRN; the lines name a PRN, where they are told one.
pub(crate) fn found_in(a: &Account, prn: Option<u8>, ledger: &[u8], issues: &[u16; 255]) -> Found {
    let e = a.epochs;
    Found {
        prn,
        rows: row_count(ledger, issues),
        refused: refused_of(a.all, a.taken),
        all: a.all,
        age: oldest(ledger, issues, e),
        gap: e.gap,
    }
}

// With the table alone, limits that do not hold are said on standard error.
fn say_unfit(rt: &HostRuntime, f: Found, o: Options) {
    if !o.csv {
        return;
    }
    let mut said = [0u8; 400];
    let n = put_unfit(&mut said, 0, f, o);
    console::say::complain(rt, &said[..n]);
}

// Whether there is a PRN i, from 0, and a limit does not hold for it.
fn is_nth_unfit(rt: &HostRuntime, i: usize, heard: &Heard, o: Options) -> bool {
    let Some(p) = heard.accounts.nth(i) else {
        return false;
    };
    let ledger = ledger_for(&heard.table, p.prn);
    let prn = named(&heard.accounts, p.prn);
    let f = found_in(&p, prn, ledger, &heard.issues);
    say_unfit(rt, f, o);
    is_unfit(f, o)
}

// The status of a night that is written: 3 where a limit does not hold for a PRN.
pub(crate) fn status_of(rt: &HostRuntime, heard: &Heard, o: Options) -> u8 {
    let mut status = 0;
    for i in 0..ROOMS {
        if is_nth_unfit(rt, i, heard, o) {
            status = 3;
        }
    }
    status
}
