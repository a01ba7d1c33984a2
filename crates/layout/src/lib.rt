// What a type carries and how wide: 01, "Message fields, in order".
#![tactic(auto)]

ghost use Rattle.std.specs.Prelude.{◌≡◌};
ghost use Rattle.layout.specs.Layout.{layout_of, orbits_from, end_of};

// How many records a message has, the bits in front of its parts, and the widths of the fields that only some types have.
#[derive(Clone, Copy)]
pub struct Layout {
    pub mask: bool,
    pub head: u8,
    pub clocks: u8,
    pub orbits: u8,
    pub iodp: u8,
    pub start: u8,
    pub slotted: bool,
}

// The layout of a type; NumC and NumO count in types 6 and 7 alone.
#[tactic(auto, unfolding(crate::specs::Layout::layout_of))]
pub fn layout_of(kind: u8, numc: u8, numo: u8) -> Layout
    ensures { result ≡ layout_of kind numc numo }
{
    let none = Layout {
        mask: false,
        head: 6,
        clocks: 0,
        orbits: 0,
        iodp: 0,
        start: 0,
        slotted: false,
    };
    match kind {
        1 => Layout { mask: true, ..none },
        2 => Layout { orbits: 6, ..none },
        4 => Layout {
            clocks: 23,
            iodp: 4,
            start: 5,
            ..none
        },
        6 => Layout {
            head: 14,
            clocks: numc,
            orbits: numo,
            iodp: 4,
            start: 9,
            ..none
        },
        7 => Layout {
            head: 14,
            clocks: numc,
            orbits: numo,
            slotted: true,
            ..none
        },
        _ => none,
    }
}

// The bit after the clock part, counted from the message's first.
pub fn orbits_from(l: Layout) -> u32
    ensures { result ≡ orbits_from l }
{
    let n = l.clocks;
    if n == 0 {
        return l.head as u32;
    }
    let each: u32 = if l.slotted { 27 } else { 18 };
    l.head as u32 + (23 + l.iodp as u32 + l.start as u32 + each * (n as u32))
}

// The bit after the last part.
pub fn end_of(l: Layout) -> u32
    ensures { result ≡ end_of l }
{
    let from = orbits_from(l);
    let n = l.orbits;
    if n == 0 {
        from
    } else {
        from + (23 + 69 * (n as u32))
    }
}
