// Refusals in words.
ghost use Rattle.io.specs.Counts.{IsPrefixLen};

use crate::put::{cursor_in, put_bytes};

// The line of a text with a number, from 1; nothing where there is none.
pub fn put_line(room: &mut [u8], at: usize, text: &[u8], number: u8) -> usize
    ensures { IsPrefixLen result room.new }
{
    let Some(before) = number.checked_sub(1) else {
        return cursor_in(room, at);
    };
    match text.split(|&b| b == b'\n').nth(usize::from(before)) {
        Some(line) => put_bytes(room, at, line),
        None => cursor_in(room, at),
    }
}

// Refusals of subframes, of D1 or D2 and of B-CNAV1, by their number less 30.
fn put_subframe_refusal(room: &mut [u8], at: usize, number: u8) -> usize
    ensures { IsPrefixLen result room.new }
{
    put_line(
        room,
        at,
        b"wrong length, or the four bits after the subframe are not zero\n\
        preamble wrong\n\
        frame is not 1 to 5\n\
        second of the week above 604799\n\
        not 75 bytes\n\
        check bits wrong\n\
        hour of the week above 167\n",
        number,
    )
}

// What a refusal says (01 and 02, by its number); nothing for a number that is none.
pub fn put_refusal(room: &mut [u8], at: usize, number: u8) -> usize
    ensures { IsPrefixLen result room.new }
{
    if number > 30 {
        return put_subframe_refusal(room, at, number - 30);
    }
    put_line(
        room,
        at,
        b"wrong length\n\
        the two bits after the message are not zero\n\
        sync is not EB90\n\
        another PRN than the ledger's, or none of the ten\n\
        service withdrawn\n\
        parity wrong\n\
        check bits wrong\n\
        type not handled\n\
        parts end after bit 462\n\
        epoch above 86399\n\
        slot out of range\n\
        one slot twice\n\
        \n\
        no mask in force, or its IOD SSR or IODP differ\n\
        no satellite has the sub-type's first place\n\
        a field exceeds its width, or no URA code gives the quarters\n\
        an issue is neither 0 to 1023 nor none\n\
        no such row\n\
        no satellite has the last place from Slot_S on\n\
        no mask in force\n\
        more rows than a sheet may have\n\
        the room is shorter than the sheet\n",
        number,
    )
}
