// Clock and orbit records: numbers with strokes between them.
use console::words::{number_of, raw_of};
use records::clock::{Clock, blank_clock};
use records::orbit::{Orbit, blank_orbit};
use ura::Ura;

// A number as a byte; 255 stands for that and all above, which no field holds.
pub(crate) fn byte_of(v: u32) -> u8 {
    v.min(255) as u8
}

// A number of 16 bits; 65535 stands for that and all above, which no field holds.
pub(crate) fn short_of(v: u32) -> u16 {
    v.min(65535) as u16
}

// Whether a text may be a record: it begins with a digit or a minus sign.
pub(crate) fn is_record(w: &[u8]) -> bool {
    !w.is_empty() && w[0] <= b'9'
}

// The slot that a text says, which is not 0.
pub(crate) fn slot_of(w: &[u8]) -> Option<u16> {
    match number_of(w)? {
        0 => None,
        slot => Some(short_of(slot)),
    }
}

// The parts of a record that are still to be read, with strokes between them; none after the last.
#[derive(Clone, Copy)]
pub(crate) struct Parts<'a> {
    rest: Option<&'a [u8]>,
}

impl<'a> Parts<'a> {
    // All parts of a record.
    pub(crate) fn new(record: &'a [u8]) -> Parts<'a> {
        Parts { rest: Some(record) }
    }

    // The next part.
    pub(crate) fn next(&mut self) -> Option<&'a [u8]> {
        let rest = self.rest?;
        match rest.iter().position(|&b| b == b'/') {
            Some(i) => {
                self.rest = Some(&rest[i + 1..]);
                Some(&rest[..i])
            }
            None => {
                self.rest = None;
                Some(rest)
            }
        }
    }

    // The next part, a slot that is not 0.
    pub(crate) fn slot(&mut self) -> Option<u16> {
        slot_of(self.next()?)
    }

    // The next part, a number as a byte.
    pub(crate) fn byte(&mut self) -> Option<u8> {
        Some(byte_of(number_of(self.next()?)?))
    }

    // The next part, a number of 16 bits.
    fn short(&mut self) -> Option<u16> {
        Some(short_of(number_of(self.next()?)?))
    }

    // The next part, a number with or without a minus sign.
    pub(crate) fn raw(&mut self) -> Option<i16> {
        raw_of(self.next()?)
    }

    // Whether nothing is left.
    pub(crate) fn is_done(&self) -> bool {
        self.rest.is_none()
    }

    // The clock of a slot, to the end.
    fn clock(&mut self, slot: u16) -> Option<Clock> {
        let corr = self.byte()?;
        let c0 = self.raw()?;
        self.is_done().then_some(Clock { slot, corr, c0 })
    }

    // Radial, along and cross.
    fn place(&mut self) -> Option<(i16, i16, i16)> {
        let radial = self.raw()?;
        let along = self.raw()?;
        let cross = self.raw()?;
        Some((radial, along, cross))
    }

    // A URA, to the end.
    fn ura(&mut self) -> Option<Ura> {
        let ura = ura_of(self.next()?)?;
        self.is_done().then_some(ura)
    }
}

// A clock record without a slot.
pub(crate) fn bare_clock(w: &[u8]) -> Option<Clock> {
    Parts::new(w).clock(0)
}

// A clock record with its slot, or a blank one.
pub(crate) fn slot_clock(w: &[u8]) -> Option<Clock> {
    if w == b"-".as_slice() {
        return Some(blank_clock());
    }
    let mut parts = Parts::new(w);
    let slot = parts.slot()?;
    parts.clock(slot)
}

// The URA that a text says.
pub(crate) fn ura_of(w: &[u8]) -> Option<Ura> {
    if w == b"unknown".as_slice() {
        return Some(Ura::Unknown);
    }
    if w == b"above".as_slice() {
        return Some(Ura::Above);
    }
    Some(Ura::Quarters(number_of(w)?))
}

// An orbit record, or a blank one.
pub(crate) fn orbit(w: &[u8]) -> Option<Orbit> {
    if w == b"-".as_slice() {
        return Some(blank_orbit());
    }
    let mut parts = Parts::new(w);
    let slot = parts.slot()?;
    let iodn = parts.short()?;
    let corr = parts.byte()?;
    let (radial, along, cross) = parts.place()?;
    let ura = parts.ura()?;
    Some(Orbit {
        slot,
        iodn,
        corr,
        radial,
        along,
        cross,
        ura,
    })
}
