// Type 5 written: URA codes by place.
#![tactic(auto)]

ghost use Rattle.std.specs.Prelude.{◌≡◌, ◌<◌};
ghost use Rattle.bits.specs.Bits.{put_rows};
ghost use Rattle.fitting.specs.Fits.{all_fit};
ghost use Rattle.code_writing.specs.Codes.{code_widths, code_row, codes_fit, codes_put};

use fitting::{head_fits, put_part_head};
use ura_codes::CodePart;

// Whether each code is within its six bits.
fn row_fits(codes: &[u8; 70]) -> bool
    ensures { result ≡ all_fit code_widths (code_row codes.now) 70 }
{
    codes.iter().all(|c| *c < 64)
}

// Whether every field of the part is within its width.
pub fn codes_fit(u: CodePart) -> bool
    ensures { result ≡ codes_fit u }
{
    head_fits(4, 3, u.epoch, u.ssr, u.iodp, u.sub as u16) && row_fits(&u.codes)
}

// The codes are put in a row from bit at on.
fn put_row(room: &mut [u8], at: usize, codes: &[u8; 70])
    requires { at < 100000 }
    ensures { room.new ≡ put_rows room.old at code_widths (code_row codes.now) 70 }
{
    for (i, c) in codes.iter().enumerate() {
        put_bits::put(room, at + 6 * i, 6, *c as u64);
    }
}

// The part is put from bit at on, the bit after the type; bits past the end are lost.
pub fn put_codes(room: &mut [u8], at: u8, u: CodePart)
    ensures { room.new ≡ codes_put room.old at u }
{
    let from = at as usize + 30;
    put_part_head(room, at as u32, 4, 3, u.epoch, u.ssr, u.iodp, u.sub as u16);
    put_row(room, from, &u.codes);
}
