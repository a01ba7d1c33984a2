// What a part has several of: slots, codes, records, and satellites with their biases.
use crate::fields::{Parts, is_record, ura_of};
use crate::reader::{Fault, Reader, SAT, SLOT, URA};
use biases::{Bias, BiasSat};
use console::words::number_of;
use std::slice::IterMut;

// Records, and how many there are; those past the N-th are not held.
#[derive(Clone, Copy)]
pub(crate) struct List<T, const N: usize> {
    pub count: u8,
    pub records: [T; N],
}

// The records from the next word on, so many at least and at most; each is what a word says.
pub(crate) fn records<T: Copy, const N: usize, F: Fn(&[u8]) -> Option<T>>(
    r: &mut Reader,
    least: u8,
    most: u8,
    blank: T,
    expected: &'static [u8],
    read: F,
) -> Result<List<T, N>, Fault>
    requires { F.IsAlwaysCallable read }
{
    let mut records = [blank; N];
    let mut count = 0;
    for i in 0..most {
        let word = r.next();
        if !is_record(word) {
            break;
        }
        let held = read(word).ok_or(r.fault(expected))?;
        if let Some(place) = records.get_mut(usize::from(i)) {
            *place = held;
        }
        r.pass();
        count = i + 1;
    }
    if count < least {
        return Err(r.fault(expected));
    }
    Ok(List { count, records })
}

// The next slot, which is above the last, is put into the mask.
fn slot(r: &mut Reader, mask: &mut [u8; 32], last: u32) -> Result<u32, Fault> {
    let slot = number_of(r.next()).ok_or(r.fault(SLOT))?;
    if slot <= last || slot > 255 {
        return Err(r.fault(SLOT));
    }
    put_bits::put(mask, slot as usize - 1, 1, 1);
    r.pass();
    Ok(slot)
}

// The slots of a mask, after their key.
pub(crate) fn slots(r: &mut Reader) -> Result<[u8; 32], Fault> {
    r.key(b"slots")?;
    let mut bytes = [0u8; 32];
    let mut last = 0;
    for _ in 0..255 {
        if r.next().is_empty() {
            break;
        }
        last = slot(r, &mut bytes, last)?;
    }
    Ok(bytes)
}

// The next accuracy index of a type 5, as a URA code; quarters that no code gives are 64, which no field holds.
fn code(r: &mut Reader) -> Result<u8, Fault> {
    let ura = ura_of(r.next()).ok_or(r.fault(URA))?;
    r.pass();
    Ok(ura::code_of(ura))
}

// The 70 accuracy indices of a type 5 after their key, as URA codes.
pub(crate) fn codes(r: &mut Reader) -> Result<[u8; 70], Fault> {
    r.key(b"uras")?;
    let mut codes = [0u8; 70];
    for place in codes.iter_mut() {
        *place = code(r)?;
    }
    Ok(codes)
}

// The next mode and its bias.
fn bias(parts: &mut Parts) -> Option<Bias> {
    let mode = parts.byte()?;
    let value = parts.raw()?;
    Some(Bias { mode, value })
}

// The satellite of a word. Its modes and biases are held as far as there is room.
fn sat_of(w: &[u8], room: &mut IterMut<'_, Bias>) -> Option<BiasSat> {
    if w == b"-".as_slice() {
        return Some(BiasSat { slot: 0, count: 0 });
    }
    let mut parts = Parts::new(w);
    let slot = parts.slot()?;
    for count in 0..255u8 {
        if parts.is_done() {
            return Some(BiasSat { slot, count });
        }
        let bias = bias(&mut parts)?;
        if let Some(place) = room.next() {
            *place = bias;
        }
    }
    None
}

// The satellite of the next word, if it may be one.
fn sat(r: &mut Reader, room: &mut IterMut<'_, Bias>) -> Result<Option<BiasSat>, Fault> {
    let word = r.next();
    if !is_record(word) {
        return Ok(None);
    }
    let sat = sat_of(word, room).ok_or(r.fault(SAT))?;
    r.pass();
    Ok(Some(sat))
}

// The satellites of a type 3 after their key, and the biases of all.
pub(crate) fn sats(r: &mut Reader) -> Result<(List<BiasSat, 31>, [Bias; 25]), Fault> {
    r.key(b"biases")?;
    let mut biases = [Bias { mode: 0, value: 0 }; 25];
    let mut room = biases.iter_mut();
    let mut records = [BiasSat { slot: 0, count: 0 }; 31];
    let mut count = 0;
    for i in 0..255u8 {
        let Some(sat) = sat(r, &mut room)? else {
            break;
        };
        if let Some(place) = records.get_mut(usize::from(i)) {
            *place = sat;
        }
        count = i + 1;
    }
    Ok((List { count, records }, biases))
}
