// Numbers in two's complement, of any width up to 16 bits.
ghost use Rattle.std.specs.Prelude.{◌≡◌, ◌*◌, ◌%◌, ◌<◌};
ghost use Rattle.records.specs.Signed.{signed_half, signed_of};

// The number that the bits of x say, where the highest weighs half.
pub(crate) fn signed(x: u64, half: u64) -> i16
    requires { (half < 16385) × (x < 2 * half) }
    ensures { result ≡ signed_half half x }
{
    if x < half {
        x as i16
    } else {
        let d = (2 * half - 1 - x) as i16;
        -1 - d
    }
}

// The number that the low 12 bits of x say.
pub fn signed12(x: u16) -> i16
    ensures { result ≡ signed_of 12 (x % 4096) }
{
    signed((x % 4096) as u64, 2048)
}
