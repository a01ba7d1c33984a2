// Hexadecimal digits as bytes, two digits each.
ghost use Rattle.std.specs.Prelude.{◌≡◌, ◌+◌, ◌*◌, ◌%◌, ◌≤◌};
ghost use Rattle.bits.specs.Some.{any_of};
ghost use Rattle.inputs.specs.Hex.{digit_of, is_no_digit, is_hex, count_of, Hexed};

// What a digit says; 16 where a byte is none.
fn digit_of(b: u8) -> u8
    ensures { result ≡ digit_of b }
{
    match b {
        b'0'..=b'9' => b - b'0',
        b'A'..=b'F' => b - b'A' + 10,
        b'a'..=b'f' => b - b'a' + 10,
        _ => 16,
    }
}

// Whether some byte of a word is no digit.
fn any_no_digit(w: &[u8]) -> bool
    ensures { result ≡ any_of is_no_digit w.now }
{
    w.iter().any(|&b| digit_of(b) > 15)
}

// Whether a word is an even number of digits.
pub fn is_hex(w: &[u8]) -> bool
    ensures { result ≡ is_hex w.now }
{
    0 < w.len() && w.len() % 2 == 0 && !any_no_digit(w)
}

// The byte that two digits say.
fn byte_of(high: u8, low: u8) -> u8
    ensures { result ≡ 16 * (digit_of high % 16) + digit_of low % 16 }
{
    let h = digit_of(high) % 16;
    let l = digit_of(low) % 16;
    16 * h + l
}

// How many bytes a word of so many digits says, or a room takes of them.
fn count_of(digits: usize, room: usize) -> usize
    ensures { (result ≡ count_of digits room) × (result ≤ room) × (2 * result ≤ digits) }
{
    (digits / 2).min(room)
}

// The bytes that a word says are put at the room's start, as many as it takes; the answer is how many.
pub fn bytes_into(w: &[u8], room: &mut [u8]) -> usize
    ensures { Hexed w.now room.old result room.new }
{
    let n = count_of(w.len(), room.len());
    for i in 0..n {
        room[i] = byte_of(w[2 * i], w[2 * i + 1]);
    }
    n
}
