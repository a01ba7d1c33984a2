// CR 3: whether a record replaces the one that is held for its slot.
#![tactic(auto)]

ghost use Rattle.std.specs.Prelude.{◌≡◌, eqb, get_or};
ghost use Rattle.lent.specs.Held.{offset};
ghost use Rattle.newest.specs.Newest.{is_newer, replaces, stamp_at};
ghost use Rattle.newest.specs.Rows.{comes_to};

// What decides of a record: the IOD SSR and the epoch of its part, and its IOD Corr.
#[derive(Clone, Copy)]
pub struct Stamp {
    pub ssr: u8,
    pub corr: u8,
    pub epoch: u32,
}

// How the records of a kind are kept, one row for each slot: where the first begins, how long each is, and where in a row its epoch, IOD SSR and IOD Corr
// stand.
#[derive(Clone, Copy)]
pub struct Rows {
    pub first: u16,
    pub size: u16,
    pub epoch: usize,
    pub ssr: usize,
    pub corr: usize,
}

// Whether an epoch is not older than the one held: less than half a day ahead of it, over midnight too.
fn is_newer(held: u32, new: u32) -> bool
    ensures { result ≡ is_newer held new }
{
    (new % 86400 + 86400 - held % 86400) % 86400 < 43200
}

// Whether a record replaces the one that a row of bytes says, whose epoch, IOD SSR and IOD Corr stand at these offsets. First byte 1 means held.
pub fn replaces_in(r: &[u8], epoch: usize, ssr: usize, corr: usize, new: Stamp) -> bool
    ensures { result ≡ replaces (eqb (get_or r.now 0 0) 1) (stamp_at r.now epoch ssr corr) new }
{
    if lent::byte(r, 0) != 1 {
        return true;
    }
    if lent::byte(r, ssr) != new.ssr {
        return true;
    }
    if lent::byte(r, corr) != new.corr {
        return true;
    }
    is_newer(lent::four(r, epoch), new.epoch)
}

impl Rows {
    // Where the row of a slot begins.
    pub fn offset(self, slot: u8) -> usize
        ensures { result ≡ offset self.size self.first slot }
    {
        usize::from(self.first) + usize::from(self.size) * usize::from(slot.saturating_sub(1))
    }

    // Whether a record replaces the one that is kept for a slot; slot 0 is none, and bytes that are not all there are no row.
    pub fn replaces(self, t: &[u8], slot: u8, new: Stamp) -> bool
        ensures { result ≡ comes_to t.now self slot new }
    {
        let at = self.offset(slot);
        let end = at + usize::from(self.size);
        if slot == 0 {
            return false;
        }
        if t.len() < end {
            return false;
        }
        replaces_in(&t[at..end], self.epoch, self.ssr, self.corr, new)
    }
}
