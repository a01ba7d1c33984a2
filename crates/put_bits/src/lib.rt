// Bits and fields put into bytes, high bit first. Bits past the end are lost.
#![tactic(auto)]

ghost use Rattle.std.specs.Prelude.{◌≡◌, ◌+◌, ◌<◌};
ghost use Rattle.bits.specs.Bits.{set_bit, put_at, byte_with, puts_at};

// The byte x with its bit of weight 2 ^ h made b.
fn with_bit(x: u64, h: u64, b: u64) -> u64
    requires { (x < 256) × (h < 8) × (b < 2) }
    ensures { result ≡ byte_with x h b }
{
    let q = (x >> h) / 2 * 2 + b;
    let p = 1u64 << h;
    q * p + x % p
}

// Bit k after bit at is made b.
fn set_bit(room: &mut [u8], at: usize, k: usize, b: u64)
    requires { (k < 256) × (b < 2) }
    ensures { room.new ≡ set_bit room.old (at + k) b }
{
    let m = at % 8 + k;
    let j = at / 8 + m / 8;
    if j < room.len() {
        let x = room[j] as u64;
        let h = 7 - m % 8;
        room[j] = with_bit(x, h as u64, b) as u8;
    }
}

// The n low bits of v are put from bit at on; bits past the end are lost.
pub fn put(room: &mut [u8], at: usize, n: u8, v: u64)
    ensures { room.new ≡ put_at room.old at n v }
{
    let mut x = v;
    for k in (0..n).rev() {
        set_bit(room, at, k as usize, x % 2);
        x /= 2;
    }
}

// A row of eight fields is put from bit at on: value i in width i. A width of 0 is no field.
pub fn puts(room: &mut [u8], at: u32, ws: [u8; 8], vs: [u64; 8])
    ensures { room.new ≡ puts_at room.old at ws vs }
{
    let mut a = at as usize;
    for (&w, &v) in ws.iter().zip(&vs) {
        put(room, a, w, v);
        a += w as usize;
    }
}
