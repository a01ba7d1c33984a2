// What became of the logs: of their frames, and of the other records of mixed logs.
use crate::accounts::Accounts;
use table_form::TABLE_SIZE;
use tally::TALLY_SIZE;

// Something could not be read or written, and it has been said what.
#[derive(Clone, Copy)]
pub struct Failed;

// How many subframes of a kind there were, and how many were taken (entry 0) and refused with each number (entry n).
#[derive(Clone, Copy)]
pub struct Counts {
    pub all: u64,
    pub times: [u64; 40],
}

impl Counts {
    // Before the first subframe.
    fn new() -> Counts {
        Counts {
            all: 0,
            times: [0; 40],
        }
    }

    // One more is counted, by its refusal, 0 for none.
    pub(crate) fn add(&mut self, refusal: u8) {
        let i = usize::from(refusal);
        self.all = self.all.saturating_add(1);
        if i < 40 {
            self.times[i] = self.times[i].saturating_add(1);
        }
    }
}

// The table of the ledgers, the tally of the refused frames and the accounts of all, the broadcast list, what became of subframes 2 of B-CNAV1 and of
// D1 subframes; the lines that say something, and how many of them were bad.
#[derive(Clone, Copy)]
pub struct Heard {
    pub table: [u8; TABLE_SIZE],
    pub tally: [u8; TALLY_SIZE],
    pub accounts: Accounts,
    pub issues: [u16; 255],
    pub cnav1: Counts,
    pub d1: Counts,
    pub lines: u64,
    pub bad: u64,
}

impl Heard {
    // Before the first log: no ledger, and no issues.
    pub fn new() -> Heard {
        Heard {
            table: [0; TABLE_SIZE],
            tally: [0; TALLY_SIZE],
            accounts: Accounts::new(),
            issues: [65535; 255],
            cnav1: Counts::new(),
            d1: Counts::new(),
            lines: 0,
            bad: 0,
        }
    }
}
