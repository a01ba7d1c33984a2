// A line that is read word by word.
use crate::fields::{byte_of, short_of};
use console::words::{next_word, number_of};

// What is expected where no key is.
pub(crate) const NUMBER: &[u8] = b"a number";

pub(crate) const CLOCK: &[u8] = b"a clock, such as 1/7";

pub(crate) const SLOT_CLOCK: &[u8] = b"a clock with its slot, such as 19/1/7, or -";

pub(crate) const ORBIT: &[u8] = b"an orbit, such as 19/37/2/100/-50/20/59, or -";

pub(crate) const SLOT: &[u8] = b"a slot above the one before, up to 255";

pub(crate) const LINE_END: &[u8] = b"the end of the line";

pub(crate) const SAT: &[u8] = b"a slot with its modes and biases, such as 19/1/-120/4/33, or -";

pub(crate) const URA: &[u8] = b"unknown, quarter millimetres, or above";

// A word that is not as expected: the position before it, its number, and what was expected.
#[derive(Clone, Copy)]
pub(crate) struct Fault {
    pub at: usize,
    pub word: u32,
    pub expected: &'static [u8],
}

// A line, the position after the last word read, and the number of the next word.
#[derive(Clone, Copy)]
pub(crate) struct Reader<'a> {
    text: &'a [u8],
    at: usize,
    word: u32,
}

impl<'a> Reader<'a> {
    // The start of a line.
    pub(crate) fn new(text: &'a [u8]) -> Reader<'a> {
        Reader {
            text,
            at: 0,
            word: 1,
        }
    }

    // The next word; empty at the end of the line.
    pub(crate) fn next(&self) -> &'a [u8] {
        let w = next_word(self.text, self.at);
        let from = w.from;
        let to = w.to;
        &self.text[from..to]
    }

    // The next word is passed.
    pub(crate) fn pass(&mut self) {
        self.at = next_word(self.text, self.at).to;
        self.word = self.word.saturating_add(1);
    }

    // The next word is not as expected.
    pub(crate) fn fault(&self, expected: &'static [u8]) -> Fault {
        Fault {
            at: self.at,
            word: self.word,
            expected,
        }
    }

    // A key is passed.
    pub(crate) fn key(&mut self, key: &'static [u8]) -> Result<(), Fault> {
        if self.next() != key {
            return Err(self.fault(key));
        }
        self.pass();
        Ok(())
    }

    // A key and its number are read.
    pub(crate) fn field(&mut self, key: &'static [u8]) -> Result<u32, Fault> {
        self.key(key)?;
        self.number()
    }

    // A key and its number are read, as a byte.
    pub(crate) fn byte(&mut self, key: &'static [u8]) -> Result<u8, Fault> {
        Ok(byte_of(self.field(key)?))
    }

    // A key and its number are read, of 16 bits.
    pub(crate) fn short(&mut self, key: &'static [u8]) -> Result<u16, Fault> {
        Ok(short_of(self.field(key)?))
    }

    // The next word, which is a number, is read.
    fn number(&mut self) -> Result<u32, Fault> {
        let value = number_of(self.next()).ok_or(self.fault(NUMBER))?;
        self.pass();
        Ok(value)
    }

    // The line must end.
    pub(crate) fn end(&self) -> Result<(), Fault> {
        if !self.next().is_empty() {
            return Err(self.fault(LINE_END));
        }
        Ok(())
    }
}
