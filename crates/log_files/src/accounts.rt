// What became of the pieces of the logs: in all, and PRN by PRN.
use frame::prn_of;
use ledger_log::epochs::{Epochs, no_epochs};
use table_form::{ROOMS, room_of};

// The account of a PRN: how many pieces were counted and taken, how many were refused with each number (entry n), and the epochs of those taken.
#[derive(Clone, Copy)]
pub struct Account {
    pub prn: u8,
    pub all: u64,
    pub taken: u64,
    pub refused: [u64; 20],
    pub epochs: Epochs,
}

impl Account {
    // That of a PRN before the first piece.
    fn new(prn: u8) -> Account {
        Account {
            prn,
            all: 0,
            taken: 0,
            refused: [0; 20],
            epochs: no_epochs(),
        }
    }

    // One piece more, that was answered with a number, 0 where it was taken.
    fn add(&mut self, piece: &[u8], number: u8) {
        let i = usize::from(number);
        self.all = self.all.saturating_add(1);
        if number == 0 {
            self.taken = self.taken.saturating_add(1);
        } else if i < 20 {
            self.refused[i] = self.refused[i].saturating_add(1);
        }
        self.epochs = ledger_log::epochs::after(self.epochs, piece, number == 0);
    }
}

// How many pieces there were and were taken in all, and the accounts of so many PRNs, in the order in which they were given.
#[derive(Clone, Copy)]
pub struct Accounts {
    pub all: u64,
    pub taken: u64,
    pub count: u8,
    pub prns: [Account; ROOMS],
}

impl Accounts {
    // No PRN, and no piece.
    pub(crate) fn new() -> Accounts {
        Accounts {
            all: 0,
            taken: 0,
            count: 0,
            prns: [Account::new(0); ROOMS],
        }
    }

    // The account of PRN i, from 0, if there is one.
    pub fn nth(&self, i: usize) -> Option<Account> {
        if i < usize::from(self.count) {
            self.prns.get(i).copied()
        } else {
            None
        }
    }

    // One PRN more, as long as there is room.
    pub(crate) fn open(&mut self, prn: u8) {
        let i = usize::from(self.count);
        if i < ROOMS {
            self.prns[i] = Account::new(prn);
            self.count += 1;
        }
    }

    // The PRN, from 0, whose account a piece is counted in: one PRN alone; of several that which a piece of 125 bytes with the right sync carries; 4
    // for none. Such a piece is answered neither 1 nor 3, and the rooms of the table are in the order in which the PRNs were given.
    fn owner_of(&self, table: &[u8], piece: &[u8], number: u8) -> usize {
        if self.count == 1 {
            return 0;
        }
        match number {
            1 | 3 => ROOMS,
            _ => room_of(table, prn_of(piece)),
        }
    }

    // One piece more, that the table answered with a number, 0 where it was taken.
    pub(crate) fn add(&mut self, table: &[u8], piece: &[u8], number: u8) {
        let i = self.owner_of(table, piece, number);
        self.all = self.all.saturating_add(1);
        if number == 0 {
            self.taken = self.taken.saturating_add(1);
        }
        if let Some(account) = self.prns.get_mut(i) {
            account.add(piece, number);
        }
    }
}
