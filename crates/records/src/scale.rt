// Raw numbers as tenths of a millimetre; biases as millimetres.
ghost use Rattle.std.specs.Prelude.{◌≡◌, ◌*ℤ◌, pos};

// Kept: no plainer: the three factors are one line each, and one generic function would need a bound on its factor.
// Radial and C0: raw times 16.
pub fn times16(raw: i16) -> i32
    ensures { result ≡ raw *ℤ pos 16 }
{
    (raw as i32) * 16
}

// Along and cross: raw times 64.
pub fn times64(raw: i16) -> i32
    ensures { result ≡ raw *ℤ pos 64 }
{
    (raw as i32) * 64
}

// A code bias: raw times 17, in millimetres.
pub fn times17(raw: i16) -> i32
    ensures { result ≡ raw *ℤ pos 17 }
{
    (raw as i32) * 17
}
