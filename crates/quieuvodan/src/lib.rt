// The calls of include/quieuvodan.h; quieuvodan_c exports them for C. Every function answers 0 or one refusal number; 39 is a lent slice of a wrong length.
#![tactic(auto)]

ghost use Rattle.std.specs.Prelude.{◌≡◌, [], length};
ghost use Rattle.verdict.specs.Verdict.{says, number_in};
ghost use Rattle.message.specs.Read.{reading_says};
ghost use Rattle.making.specs.Make.{Leaves};
ghost use Rattle.pieces.specs.Pieces.{piece_length};
ghost use Rattle.answers.specs.Size.{contents_size};
ghost use Rattle.answers.specs.Detail.{detail_in};
ghost use Rattle.signal_calls.specs.D1.{d1_read_answer, d1_read_room, d1_write_answer, d1_write_room};
ghost use Rattle.signal_calls.specs.Cnav1.{cnav1_answer, cnav1_room, join_answer, join_room};
ghost use Rattle.message_calls.specs.Make.{make_answer, check_answer};
ghost use Rattle.ledger_calls.specs.Ledger.{open_answer, open_room, take_answer, take_room, replay_answer, replay_ledger, replay_verdicts};
ghost use Rattle.row_calls.specs.Rows.{rows_answer, rows_room, row_answer, row_room};
ghost use Rattle.message_calls.specs.Message.{reading_room, read_answer, read_room, frame_answer, frame_room, write_answer, write_room};

use answers::detail;
use d1_subframes::{read_subframe, write_subframe};
use flat_forms::put_contents;
use flat_subframe2::read_fields;
use frame::{is_prn, read_frame};
use from_flat::contents_of;
use held_mask::LEDGER_SIZE;
use joining::join;
use ledger::open::make_fresh;
use ledger::take::take_in;
use message::{Reading, read};
use verdict::{Verdict, number_of};
use writing::write;

pub mod sheet;
pub mod tables;

// The bytes of contents.
const CONTENTS_SIZE: usize = 516;

// A fresh ledger for a PRN. 4, 39.
pub fn qvd_open(ledger: &mut [u8], prn: u8) -> u8
    ensures answer { result ≡ open_answer ledger.old prn }
    ensures bytes { ledger.new ≡ open_room ledger.old prn }
{
    if ledger.len() != LEDGER_SIZE {
        return 39;
    }
    if !is_prn(prn) {
        return 4;
    }
    make_fresh(ledger, prn);
    0
}

// A frame is taken into a ledger. 1, 3 to 12, 14, 15, 19, 39.
pub fn qvd_take(ledger: &mut [u8], frame: &[u8]) -> u8
    ensures answer { result ≡ take_answer number_in ledger.old frame.now }
    ensures bytes { ledger.new ≡ take_room ledger.old frame.now }
{
    if ledger.len() != LEDGER_SIZE {
        return 39;
    }
    number_of(take_in(ledger, frame))
}

// A frame is taken into a ledger, and the answer also says what the numbers 6 and 19 carry. 1, 3 to 12, 14, 15, 19, 39.
pub fn qvd_take_detail(ledger: &mut [u8], frame: &[u8]) -> u32
    ensures answer { result ≡ take_answer detail_in ledger.old frame.now }
    ensures bytes { ledger.new ≡ take_room ledger.old frame.now }
{
    if ledger.len() != LEDGER_SIZE {
        return 39;
    }
    detail(take_in(ledger, frame))
}

// A fresh ledger for a PRN takes all frames of a log, one verdict byte a frame; a rest at the end is one more frame. 4, 39.
pub fn qvd_replay(ledger: &mut [u8], prn: u8, log: &[u8], verdicts: &mut [u8]) -> u8
    ensures answer { result ≡ replay_answer ledger.old prn log.now verdicts.old }
    ensures bytes { ledger.new ≡ replay_ledger ledger.old prn log.now verdicts.old }
    ensures answers { verdicts.new ≡ replay_verdicts number_in ledger.old prn log.now verdicts.old }
{
    replaying::replay(ledger, prn, log, verdicts)
}

// A fresh ledger for a PRN takes all frames of a log, and each number also says what 6 and 19 carry. 4, 39.
pub fn qvd_replay_detail(ledger: &mut [u8], prn: u8, log: &[u8], details: &mut [u32]) -> u8
    ensures answer { result ≡ replay_answer ledger.old prn log.now details.old }
    ensures bytes { ledger.new ≡ replay_ledger ledger.old prn log.now details.old }
    ensures answers { details.new ≡ replay_verdicts detail_in ledger.old prn log.now details.old }
{
    replaying::replay_detail(ledger, prn, log, details)
}

// All rows in rising slot order, then zeros. 1, 17, 39.
pub fn qvd_rows(ledger: &[u8], issues: &[u16], rows: &mut [u8]) -> u8
    ensures answer { result ≡ rows_answer ledger.now issues.now rows.old }
    ensures bytes { rows.new ≡ rows_room ledger.now issues.now rows.old }
{
    row_rooms::rows(ledger, issues, rows)
}

// The row of a slot. 1, 11, 17, 18, 39.
pub fn qvd_row(ledger: &[u8], issues: &[u16], slot: u16, row: &mut [u8]) -> u8
    ensures answer { result ≡ row_answer ledger.now issues.now slot row.old }
    ensures bytes { row.new ≡ row_room ledger.now issues.now slot row.old }
{
    row_rooms::row(ledger, issues, slot, row)
}

// The contents that are read are put, or it is said why there are none.
fn put_reading(room: &mut [u8], r: Reading) -> Verdict
    requires room { length room.old ≡ contents_size }
    requires quiet { number_in (reading_says r).said ≡ 0 → (reading_says r).said ≡ [] }
    ensures answer { says result ≡ (reading_says r).said }
    ensures bytes { room.new ≡ reading_room (reading_says r) room.old }
{
    match r {
        Ok(c) => {
            put_contents(room, c);
            Ok(())
        }
        Err(e) => Err(e),
    }
}

// The contents of a message; on a refusal the room is as it was. 1, 2, 7 to 13, 39.
pub fn qvd_read(message: &[u8], contents: &mut [u8]) -> u8
    ensures answer { result ≡ read_answer message.now contents.old }
    ensures bytes { contents.new ≡ read_room message.now contents.old }
{
    if contents.len() != CONTENTS_SIZE {
        return 39;
    }
    number_of(put_reading(contents, read(message)))
}

// The contents of a frame, read without a ledger; on a refusal the room is as it was. 1, 3, 5 to 13, 39.
pub fn qvd_read_frame(frame: &[u8], contents: &mut [u8]) -> u8
    ensures answer { result ≡ frame_answer number_in frame.now contents.old }
    ensures bytes { contents.new ≡ frame_room frame.now contents.old }
{
    if contents.len() != CONTENTS_SIZE {
        return 39;
    }
    number_of(put_reading(contents, read_frame(frame)))
}

// The contents of a frame as qvd_read_frame gives them, and the answer also says what the number 6 carries. 1, 3, 5 to 13, 39.
pub fn qvd_read_frame_detail(frame: &[u8], contents: &mut [u8]) -> u32
    ensures answer { result ≡ frame_answer detail_in frame.now contents.old }
    ensures bytes { contents.new ≡ frame_room frame.now contents.old }
{
    if contents.len() != CONTENTS_SIZE {
        return 39;
    }
    detail(put_reading(contents, read_frame(frame)))
}

// The message of contents. 1, 8 to 12, 16, 39.
pub fn qvd_write(contents: &[u8], room: &mut [u8]) -> u8
    ensures answer { result ≡ write_answer contents.now room.old }
    ensures bytes { room.new ≡ write_room contents.now room.old }
{
    if contents.len() != CONTENTS_SIZE {
        return 39;
    }
    number_of(write(room, contents_of(contents)))
}

// The 125 bytes of a message's frame, with a PRN and the six flags; on a refusal the room is as it was. 1, 2, 4, 16.
pub fn qvd_make_frame(message: &[u8], prn: u8, flags: u8, frame: &mut [u8]) -> u8
    ensures answer { result ≡ make_answer message.now prn flags frame.old }
    ensures bytes { Leaves message.now prn flags frame.old frame.new }
{
    number_of(making::make(message, prn, flags, frame))
}

// A frame is checked against its message, and the answer also says what the number 6 carries. 1, 2, 3, 6, 38.
pub fn qvd_check_frame(message: &[u8], frame: &[u8]) -> u32
    ensures { result ≡ check_answer message.now frame.now }
{
    detail(making::check(message, frame))
}

// The 28 bytes of a subframe's information bits, its code words corrected; on a refusal the room is as it was. 31 to 34.
pub fn qvd_d1_read(subframe: &[u8], information: &mut [u8]) -> u8
    ensures answer { result ≡ d1_read_answer subframe.now information.old }
    ensures bytes { information.new ≡ d1_read_room subframe.now information.old }
{
    number_of(read_subframe(information, subframe))
}

// The 38 bytes of the subframe of 28 bytes of information bits; on a refusal the room is as it was. 31 to 34.
pub fn qvd_d1_write(information: &[u8], subframe: &mut [u8]) -> u8
    ensures answer { result ≡ d1_write_answer information.now subframe.old }
    ensures bytes { subframe.new ≡ d1_write_room information.now subframe.old }
{
    number_of(write_subframe(subframe, information))
}

// The fields of a B-CNAV1 subframe 2, eight bytes each; on a refusal the room is as it was. 35 to 37, 39.
pub fn qvd_read_cnav1(subframe: &[u8], fields: &mut [u8]) -> u8
    ensures answer { result ≡ cnav1_answer subframe.now fields.old }
    ensures bytes { fields.new ≡ cnav1_room subframe.now fields.old }
{
    number_of(read_fields(fields, subframe))
}

// The IODC of a BeiDou satellite is put into the broadcast list; on a refusal the list is as it was. 1, 11, 17.
pub fn qvd_join_issue(issues: &mut [u16], prn: u16, iodc: u16) -> u8
    ensures answer { result ≡ join_answer issues.old prn iodc }
    ensures entries { issues.new ≡ join_room issues.old prn iodc }
{
    number_of(join(issues, prn, iodc))
}

// The bytes of the next piece of a log: a frame that is found, or what stands before it.
pub fn qvd_next_piece(bytes: &[u8]) -> u8
    ensures { result ≡ piece_length bytes.now }
{
    pieces::piece_length(bytes)
}
