// The sheet of our own list.
use console::put::{cursor_in, put_bytes, put_number};
use console::refusals::put_refusal;
use log_files::command::take_night;
use log_files::frames::How;
use log_files::heard::Heard;
use sheet_writing::write_sheet;
use table_form::ledger_for;
use verdict::Refused;

// How the logs are read: for one PRN, and it is said how far it is.
pub(crate) fn how(mixed: bool) -> How {
    How {
        several: false,
        mixed,
        each: false,
        quiet: false,
    }
}

// The PRN that the logs were read for; 0, for which there is no ledger, where there is none.
pub(crate) fn prn_of(heard: &Heard) -> u8 {
    heard.accounts.nth(0).map_or(0, |a| a.prn)
}

// The list gives no sheet: the number of the refusal, and its words.
fn say_refused(rt: &HostRuntime, number: u8) {
    let mut refused = [0u8; 20];
    let mut words = [0u8; 80];
    let a = put_bytes(&mut refused, 0, b"refused ");
    let n = put_number(&mut refused, a, u64::from(number));
    let k = put_refusal(&mut words, 0, number);
    console::say::say_file(rt, b"sheet", &refused[..n], &words[..k]);
}

// The sheet of the list goes to standard output, in one piece; the answer is the status.
fn write_list(rt: &HostRuntime, heard: &Heard) -> u8 {
    let mut room = [0u8; crate::file::ROOM];
    let ledger = ledger_for(&heard.table, prn_of(heard));
    match write_sheet(&mut room, ledger, &heard.issues) {
        Err(Refused(number)) => {
            say_refused(rt, number);
            1
        }
        Ok(length) => {
            let n = cursor_in(&room, usize::from(length));
            if console::out::write(rt, b"sheet", &room[..n]) {
                0
            } else {
                1
            }
        }
    }
}

// PRN, ISSUES and the logs are the arguments from i on, of count; the answer is the status.
pub(crate) fn run(rt: &HostRuntime, i: usize, count: usize, mixed: bool) -> u8 {
    let mut heard = Heard::new();
    match take_night(rt, b"sheet", i, count, how(mixed), &mut heard) {
        Ok(()) => write_list(rt, &heard),
        Err(_) => 1,
    }
}
