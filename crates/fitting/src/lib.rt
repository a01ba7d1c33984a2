// Values held against the widths of their fields, and the head of a part put.
#![tactic(auto)]

ghost use Rattle.std.specs.Prelude.{◌≡◌, ◌^◌, ltb};
ghost use Rattle.std.specs.Int.Signed.{mag};
ghost use Rattle.bits.specs.Bits.{puts_at};
ghost use Rattle.layout.specs.Layout.{part_widths};
ghost use Rattle.fitting.specs.Fits.{eight, raw_or, head_vals, fits};

// How far a number lies from 0, or from -1 downwards.
fn size(z: i16) -> u64
    ensures { result ≡ mag z }
{
    if z < 0 {
        let m = -1 - z;
        m as u64
    } else {
        z as u64
    }
}

// The bits of a number whose highest weighs half; one bit too wide where it is out of range.
pub fn raw_or(z: i16, half: u16) -> u64
    ensures { result ≡ raw_or half z }
{
    let m = size(z);
    let h = half as u64;
    if m >= h {
        return 2 * h;
    }
    if z < 0 { 2 * h - 1 - m } else { m }
}

// Whether a value is within its width.
fn one_fits(w: u8, v: u64) -> bool
    ensures { result ≡ ltb v (2 ^ w) }
{
    w > 63 || v < (1u64 << w)
}

// Whether each value of a row is within its width.
pub fn row_fits(ws: [u8; 8], vs: [u64; 8]) -> bool
    ensures { result ≡ fits ws vs }
{
    ws.iter().zip(vs.iter()).all(|(w, v)| one_fits(*w, *v))
}

// The widths of a part's head: epoch, reserved, IOD SSR, IODP, sub-type or Slot_S.
fn head_widths(iodp: u8, start: u8) -> [u8; 8]
    ensures { result ≡ eight (part_widths iodp start) }
{
    [17, 4, 2, iodp, start, 0, 0, 0]
}

// The values of a part's head.
fn head_vals(epoch: u32, ssr: u8, iodp: u8, start: u16) -> [u64; 8]
    ensures { result ≡ eight (head_vals epoch ssr iodp start) }
{
    [
        epoch as u64,
        0,
        ssr as u64,
        iodp as u64,
        start as u64,
        0,
        0,
        0,
    ]
}

// Whether the fields of a part's head are within their widths.
pub fn head_fits(p: u8, w: u8, epoch: u32, ssr: u8, iodp: u8, start: u16) -> bool
    ensures { result ≡ fits (part_widths p w) (head_vals epoch ssr iodp start) }
{
    row_fits(head_widths(p, w), head_vals(epoch, ssr, iodp, start))
}

// The head of a part is put from bit at on.
pub fn put_part_head(
    room: &mut [u8],
    at: u32,
    p: u8,
    w: u8,
    epoch: u32,
    ssr: u8,
    iodp: u8,
    start: u16,
)
    ensures { room.new ≡ puts_at room.old at (part_widths p w) (head_vals epoch ssr iodp start) }
{
    put_bits::puts(
        room,
        at,
        head_widths(p, w),
        head_vals(epoch, ssr, iodp, start),
    );
}
