// The sheet in a file.
use console::args::argument;
use console::input::{Input, is_standard};
use console::say::say_errno;
use inputs::files::open_named;

// So many bytes of a file decide what is answered: the longest sheet has 8 + 24 x 174 + 3, and one byte more is behind its end. All fields that a
// reader judges, and the first byte after the end, stand among them, whatever follows.
pub(crate) const ROOM: usize = 4188;

// The open file of a name is read to its end, or until the room is full: how many bytes came; nothing where it cannot be read, and it has been said
// why.
fn fill(rt: &HostRuntime, input: &mut Input, name: &[u8], room: &mut [u8]) -> Option<usize> {
    let p = console::input::fill(input, room);
    match p.error {
        None => Some(p.count),
        Some(e) => {
            say_errno(rt, b"sheet", name, e);
            None
        }
    }
}

// The same, with standard input called by its name.
fn fill_named(rt: &HostRuntime, input: &mut Input, name: &[u8], room: &mut [u8]) -> Option<usize> {
    if is_standard(input) {
        return fill(rt, input, b"standard input", room);
    }
    fill(rt, input, name, room)
}

// The file of a name is read.
fn read_named(rt: &HostRuntime, name: &[u8], room: &mut [u8]) -> Option<usize> {
    let mut input = open_named(rt, b"sheet", name)?;
    fill_named(rt, &mut input, name, room)
}

// The file of argument i is read, as far as the room goes: how many bytes came; nothing where it cannot be read, and it has been said why.
pub(crate) fn read_arg(rt: &HostRuntime, i: usize, room: &mut [u8]) -> Option<usize> {
    if !inputs::files::is_readable(rt, b"sheet", i) {
        return None;
    }
    let mut path = io::buffer();
    let n = argument(rt, i, &mut path).count;
    read_named(rt, &path[..n], room)
}
