// Messages: the answer of reading one that begins at any bit, and one of 61 bytes.
#![tactic(auto)]

ghost use Rattle.std.specs.Prelude.{◌≡◌};
ghost use Rattle.message.specs.Read.{reading_says, answer, read_at, read_message};

use contents::parts::Contents;
use judging::refusal_of;
use reading::{contents_at, end_at};
use verdict::{Refusal, verdict_of};

// The contents, or why there are none.
pub type Reading = Result<Contents, Refusal>;

// Taken with its contents, or refused with n and nothing else.
pub fn answer_of(n: u8, c: Contents) -> Reading
    ensures { reading_says result ≡ answer n c }
{
    verdict_of(n)?;
    Ok(c)
}

// The message that begins at bit at, its check left aside.
pub fn read_at(s: &[u8], at: u8) -> Reading
    ensures { reading_says result ≡ read_at s.now at }
{
    let c = contents_at(s, at);
    refusal_of(end_at(s, at), c)?;
    Ok(c)
}

// A message of 61 bytes.
pub fn read(s: &[u8]) -> Reading
    ensures { reading_says result ≡ read_message s.now }
{
    if s.len() != 61 {
        return Err(Refusal::Number(1));
    }
    if bits::get8(s, 486, 2) != 0 {
        return Err(Refusal::Number(2));
    }
    if !check24::check_ok(s, 0, 462) {
        return Err(Refusal::Number(7));
    }
    read_at(s, 0)
}
