// Words of the D1 and D2 messages (003, section 5.1.3): BCH(15,11,1) code words, alone and two interleaved.
#![tactic(auto)]

ghost use Rattle.std.specs.Prelude.{◌≡◌, ◌<◌, get_or};
ghost use Rattle.d1_words.specs.Code.{word_shifted, remainder_of, code_word, masks, corrected};
ghost use Rattle.d1_words.specs.Word.{spread, every_other, interleaved, written_word, read_word, written_first, read_first};

// 003, section 5.1.3, table 5-2: the correction mask of each state D3 D2 D1 D0 of the register, 0000 to 1111.
const MASKS: [u16; 16] = [
    0b000000000000000,
    0b000000000000001,
    0b000000000000010,
    0b000000000010000,
    0b000000000000100,
    0b000000100000000,
    0b000000000100000,
    0b000010000000000,
    0b000000000001000,
    0b100000000000000,
    0b000001000000000,
    0b000000010000000,
    0b000000001000000,
    0b010000000000000,
    0b000100000000000,
    0b001000000000000,
];

// The register of the division by X^4 + X + 1 after one bit more.
fn shift(r: u16, b: u16) -> u16
    requires { (r < 16) × (b < 2) }
    ensures { result ≡ word_shifted r b }
{
    if r < 8 {
        (r * 2) ^ b
    } else {
        ((r * 2) ^ 19) ^ b
    }
}

// What the division of 15 bits by X^4 + X + 1 leaves.
fn remainder(w: u16) -> u16
    ensures { result ≡ remainder_of w }
{
    let mut r: u16 = 0;
    for k in (0..15u16).rev() {
        r = shift(r, (w >> k) % 2);
    }
    r
}

// The correction mask of a state of the register.
fn mask_of(s: u16) -> u16
    requires { s < 16 }
    ensures { result ≡ get_or masks s 0 }
{
    MASKS[s as usize]
}

// The code word of eleven bits; bits above them are ignored.
pub fn bch_encode(info: u16) -> u16
    ensures { result ≡ code_word info }
{
    let x = info % 2048 * 16;
    x + remainder(x)
}

// The eleven bits of a code word, at most one of whose 15 bits is flipped; bits above them are ignored.
pub fn bch_correct(word: u16) -> u16
    ensures { result ≡ corrected word }
{
    let s = remainder(word);
    let m = mask_of(s);
    (word ^ m) / 16 % 2048
}

// The 15 low bits of a number, each at the lower of two offsets.
fn apart(a: u16) -> u32
    ensures { result ≡ spread a }
{
    let mut r: u32 = 0;
    for k in (0..15u16).rev() {
        let b = (a >> k) % 2;
        r = r * 4 + b as u32;
    }
    r
}

// 15 bits of a number, every second one from its lowest on.
fn every_other(w: u32) -> u16
    ensures { result ≡ every_other w }
{
    let mut r: u16 = 0;
    for k in (0..15u32).rev() {
        let b = (w >> (2 * k)) % 2;
        r = r * 2 + b as u16;
    }
    r
}

// The word of 22 bits: two code words, interleaved; bits above them are ignored.
pub fn write_word(d: u32) -> u32
    ensures { result ≡ written_word d }
{
    let a = bch_encode((d / 2048 % 2048) as u16);
    let b = bch_encode((d % 2048) as u16);
    apart(a) * 2 + apart(b)
}

// The 22 bits of a word, each of its two code words corrected; bits above its 30 are ignored.
pub fn read_word(w: u32) -> u32
    ensures { result ≡ read_word w }
{
    let a = bch_correct(every_other(w / 2));
    let b = bch_correct(every_other(w));
    a as u32 * 2048 + b as u32
}

// A subframe's first word, of 26 bits: 15 as they are and one code word; bits above them are ignored.
pub fn write_first(d: u32) -> u32
    ensures { result ≡ written_first d }
{
    let b = bch_encode((d % 2048) as u16);
    d / 2048 % 32768 * 32768 + b as u32
}

// The 26 bits of a subframe's first word, its code word corrected; bits above its 30 are ignored.
pub fn read_first(w: u32) -> u32
    ensures { result ≡ read_first w }
{
    let b = bch_correct((w % 32768) as u16);
    w / 32768 % 32768 * 2048 + b as u32
}
