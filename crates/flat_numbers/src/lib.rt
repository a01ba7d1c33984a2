// Numbers with a sign as bytes say them: two's complement.
#![tactic(auto)]

ghost use Rattle.std.specs.Prelude.{◌≡◌};
ghost use Rattle.records.specs.Signed.{raw_half, signed_half};

// A number with its sign as two bytes say it.
pub fn raw16(z: i16) -> u16
    ensures { result ≡ raw_half 32768 z }
{
    z.cast_unsigned()
}

// A number with its sign as four bytes say it.
pub fn raw32(z: i32) -> u32
    ensures { result ≡ raw_half 2147483648 z }
{
    z.cast_unsigned()
}

// The number with its sign that two bytes say.
pub fn signed16(x: u16) -> i16
    ensures { result ≡ signed_half 32768 x }
{
    x.cast_signed()
}
