// The epochs of the accepted frames of a log: the first, the last, the longest gap, and the frames since the last.
ghost use Rattle.std.specs.Prelude.{◌≡◌, eqb, Some, None};
ghost use Rattle.std.proofs.Math.Option.{none};
ghost use Rattle.bits.specs.Pick.{pick};
ghost use Rattle.frame.specs.Frame.{contents_of};
ghost use Rattle.ledger_log.specs.Epochs.{epoch_of, no_epochs, lapse, longer, since_then, with_epoch, epochs_after, epoch_bit};

// The epochs so far. Before the first, has is false and since counts all frames.
#[derive(Clone, Copy)]
pub struct Epochs {
    pub has: bool,
    pub first: u32,
    pub last: u32,
    pub gap: u32,
    pub since: u64,
}

// No epoch, before the first frame.
pub fn no_epochs() -> Epochs
    ensures { result ≡ no_epochs }
{
    Epochs {
        has: false,
        first: 0,
        last: 0,
        gap: 0,
        since: 0,
    }
}

// From one epoch to the next, modulo a day.
fn lapse(this: u32, next: u32) -> u32
    ensures { result ≡ lapse this next }
{
    (next % 86400 + 86400 - this % 86400) % 86400
}

// The longer of a gap and a lapse below half a day.
fn longer(gap: u32, d: u32) -> u32
    ensures { result ≡ longer gap d }
{
    if (gap < d) & (d < 43200) { d } else { gap }
}

// After a frame that brings no epoch.
fn since_then(e: Epochs) -> Epochs
    ensures { result ≡ since_then e }
{
    Epochs {
        since: e.since.saturating_add(1),
        ..e
    }
}

// After an accepted frame of epoch x.
fn with_epoch(e: Epochs, x: u32) -> Epochs
    ensures { result ≡ with_epoch e x }
{
    if e.has {
        let gap = longer(e.gap, lapse(e.last, x));
        return Epochs {
            last: x,
            gap,
            since: 0,
            ..e
        };
    }
    Epochs {
        has: true,
        first: x,
        last: x,
        ..no_epochs()
    }
}

// The bit at which the frame's epoch begins, where it carries one.
fn epoch_bit(frame: &[u8]) -> Option<usize>
    ensures { result ≡ pick (eqb (epoch_bit frame.now) 0) None (Some (epoch_bit frame.now)) }
{
    let kind = bits::get8(frame, 28, 6);
    let counts = bits::get8(frame, 34, 8);
    if (kind == 1) | (kind == 2) | (kind == 3) | (kind == 4) | (kind == 5) {
        return Some(34);
    }
    if ((kind == 6) | (kind == 7)) & (0 < counts) {
        return Some(42);
    }
    None
}

// The epochs after one more frame handed in; taken says whether the ledger took it.
pub fn after(e: Epochs, frame: &[u8], taken: bool) -> Epochs
    ensures { result ≡ epochs_after e (pick taken (epoch_of (contents_of frame.now)) none) }
{
    if !taken {
        return since_then(e);
    }
    let Some(at) = epoch_bit(frame) else {
        return since_then(e);
    };
    with_epoch(e, bits::get32(frame, at, 17))
}
