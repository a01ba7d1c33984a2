// Runs 01's examples, of the field, the check, the code word of 000's appendix, messages, and ledgers that take
// frames, and 02's of the correction sheet. The frames are files, one for each case; tests/outside/make_examples.c says
// what each must give, and why.
#![tactic(auto)]

ghost use Rattle.std.specs.Prelude.{◌<◌};

mod ask;
mod cases;
mod say;
mod sheet;

use held_mask::LEDGER_SIZE;
use say::{say, say_text, say_ura};
use verdict::number_of;

// 000, appendix: the code word of the encoding example, 162 symbols in the print's order, nine to a row.
const WORD: [[u8; 9]; 18] = [
    [10, 50, 19, 33, 10, 38, 16, 41, 44],
    [47, 28, 5, 14, 58, 9, 52, 34, 63],
    [5, 28, 6, 61, 0, 49, 52, 55, 5],
    [25, 16, 51, 27, 58, 11, 16, 9, 8],
    [55, 37, 35, 9, 54, 39, 22, 32, 25],
    [4, 15, 7, 11, 15, 26, 3, 57, 60],
    [31, 31, 21, 57, 23, 7, 49, 24, 15],
    [25, 6, 8, 60, 61, 36, 3, 15, 22],
    [52, 0, 2, 10, 41, 46, 41, 28, 35],
    [36, 46, 57, 0, 55, 1, 22, 45, 50],
    [9, 27, 9, 26, 3, 11, 41, 21, 31],
    [13, 43, 30, 13, 61, 31, 20, 8, 6],
    [36, 3, 45, 12, 57, 59, 23, 10, 43],
    [45, 63, 1, 60, 15, 47, 10, 6, 40],
    [56, 24, 2, 19, 19, 46, 43, 19, 61],
    [26, 1, 7, 61, 11, 55, 48, 43, 49],
    [44, 50, 27, 31, 27, 12, 60, 51, 58],
    [15, 6, 29, 61, 39, 38, 5, 53, 34],
];

// Symbol k of the appendix's code word.
fn symbol(k: usize) -> u8
    requires { k < 162 }
{
    WORD[k / 9][k % 9]
}

// A frame with the appendix's code word: sync, PRN 60, flags of zero, 162 symbols.
fn frame() -> [u8; 125] {
    let mut out = [0u8; 125];
    put_bits::put(&mut out, 0, 16, 0xEB90);
    put_bits::put(&mut out, 16, 6, 60);
    for k in 0..162 {
        put_bits::put(&mut out, 28 + 6 * k, 6, u64::from(symbol(k)));
    }
    out
}

// The frame with the low bit of symbol k turned over.
fn damaged(k: u8) -> [u8; 125] {
    let mut out = frame();
    let at = 28 + 6 * usize::from(k);
    let was = bits::get(&out, at, 6);
    put_bits::put(&mut out, at, 6, was ^ 1);
    out
}

// The frame with symbol k damaged is found wrong.
fn caught(k: u8) -> bool {
    !parity::parity_ok(&damaged(k))
}

// How many of the 162 symbols, each damaged alone, are caught.
fn caught_count() -> u64 {
    (0..162).filter(|&k| caught(k)).count() as u64
}

// Writes a product of the field.
fn say_product(rt: &HostRuntime, a: u8, b: u8) {
    let numbers = [u64::from(a), u64::from(b), u64::from(field64::mul(a, b))];
    say_text(rt, b"field: # x # = #\n", &numbers);
}

// Writes the check of 462 zero bits, the last of them made b.
fn say_check(rt: &HostRuntime, text: &[u8], b: u64) {
    let mut message = [0u8; 61];
    put_bits::put(&mut message, 461, 1, b);
    say(rt, text);
    let mut digits = [0u8; 16];
    let k = io::hex(u64::from(check24::check(&message, 0, 462)), 6, &mut digits);
    say(rt, &digits[..k]);
    say(rt, b"\n");
}

// Writes whether the appendix's code word passes the parity check.
fn say_parity(rt: &HostRuntime) {
    let word = frame();
    say(rt, b"appendix word: parity ");
    if parity::parity_ok(&word) {
        say(rt, b"holds\n");
    } else {
        say(rt, b"does not hold\n");
    }
}

// Writes how many damaged symbols are caught.
fn say_caught(rt: &HostRuntime) {
    let numbers = [caught_count()];
    say_text(rt, b"damaged symbols caught: # of 162\n", &numbers);
}

// Writes which groups fail where symbol k is damaged.
fn say_groups(rt: &HostRuntime, k: u8) {
    let out = damaged(k);
    let g = parity::failed_groups(&out);
    let numbers = [u64::from(k), u64::from(g.first), u64::from(g.failing)];
    say_text(
        rt,
        b"symbol # damaged: first group #, failing #\n",
        &numbers,
    );
}

// Writes the accuracy index of a code.
fn say_code(rt: &HostRuntime, code: u8) {
    let numbers = [u64::from(code)];
    say_text(rt, b"URA code #: ", &numbers);
    say_ura(rt, ura::ura_of(code));
    say(rt, b"\n");
}

// Writes the bit after the last of a message with these counts.
fn say_end(rt: &HostRuntime, kind: u8, numc: u8, numo: u8) {
    let end = layout::end_of(layout::layout_of(kind, numc, numo));
    let numbers = [
        u64::from(kind),
        u64::from(numc),
        u64::from(numo),
        u64::from(end),
    ];
    say_text(rt, b"type #, # and #, ends at #\n", &numbers);
}

// Writes the answer to a message.
fn say_read(rt: &HostRuntime, text: &[u8], message: &[u8]) {
    let number = match message::read(message) {
        Ok(_) => 0,
        Err(r) => number_of(Err(r)),
    };
    let numbers = [u64::from(number)];
    say(rt, text);
    say_text(rt, b"#\n", &numbers);
}

// Writes the answer to a message of zero bytes but for one bit.
fn say_read_bit(rt: &HostRuntime, text: &[u8], at: usize) {
    let mut message = [0u8; 61];
    put_bits::put(&mut message, at, 1, 1);
    say_read(rt, text, &message);
}

// Whether a ledger can be opened for a PRN.
fn opens(prn: u8) -> bool {
    let mut ledger = [0u8; LEDGER_SIZE];
    number_of(ledger::open::open(&mut ledger, prn)) == 0
}

// Writes the PRN if a ledger can be opened for it.
fn say_if_opens(rt: &HostRuntime, prn: u8) {
    if opens(prn) {
        let numbers = [u64::from(prn)];
        say_text(rt, b" #", &numbers);
    }
}

// Writes each PRN that a ledger can be opened for.
fn say_opened(rt: &HostRuntime) {
    say(rt, b"ledgers opened:");
    for prn in 0..=255u8 {
        say_if_opens(rt, prn);
    }
    say(rt, b"\n");
}

// The field, the check and the parity.
fn say_codes(rt: &HostRuntime) {
    say_product(rt, 2, 32);
    say_product(rt, 2, 63);
    say_product(rt, 32, 32);
    say_check(rt, b"check of 462 zero bits: ", 0);
    say_check(rt, b"check with only the last bit set: ", 1);
    say_parity(rt);
    say_caught(rt);
    say_groups(rt, 0);
    say_groups(rt, 42);
    say_groups(rt, 161);
}

// The accuracy indices and the ends.
fn say_fields(rt: &HostRuntime) {
    say_code(rt, 0);
    say_code(rt, 1);
    say_code(rt, 19);
    say_code(rt, 62);
    say_code(rt, 63);
    say_end(rt, 6, 22, 0);
    say_end(rt, 6, 2, 5);
    say_end(rt, 6, 3, 5);
    say_end(rt, 7, 15, 0);
    say_end(rt, 7, 2, 5);
    say_end(rt, 7, 3, 5);
}

// The messages that are nearly all zero.
fn say_messages(rt: &HostRuntime) {
    let zeros = [0u8; 61];
    say_read(rt, b"message of 61 zero bytes: ", &zeros);
    say_read_bit(rt, b"message with only bit 461 set: ", 461);
    say_read_bit(rt, b"message with only bit 487 set: ", 487);
    say_read(rt, b"message of 60 zero bytes: ", &zeros[..60]);
}

// Codes, fields, messages, and the cases.
fn main(rt: HostRuntime) {
    say_codes(&rt);
    say_fields(&rt);
    say_messages(&rt);
    say_opened(&rt);
    cases::refusals(&rt);
    cases::the_list(&rt);
    cases::the_newest(&rt);
    cases::biases_and_codes(&rt);
    ask::asked(&rt);
}
