// The broadcast list as an ISSUES file.
ghost use Rattle.io.specs.Counts.{IsPrefixLen};

use console::put::{cursor_in, put_byte, put_number};
use inputs::satellites::put_name;
use slots::Slot;

// The line of a slot, if it has an issue.
fn put_issue(room: &mut [u8], at: usize, slot: u8, issue: u16) -> usize
    ensures { IsPrefixLen result room.new }
{
    if issue == 65535 {
        return cursor_in(room, at);
    }
    let a = put_name(room, at, Slot(slot));
    let b = put_byte(room, a, b' ');
    let c = put_number(room, b, u64::from(issue));
    put_byte(room, c, b'\n')
}

// The lines of all slots that a satellite has, rising.
fn put_issues(room: &mut [u8], issues: &[u16; 255]) -> usize
    ensures { IsPrefixLen result room.new }
{
    let mut n = cursor_in(room, 0);
    for slot in 1..=174u8 {
        n = put_issue(room, n, slot, issues[usize::from(slot) - 1]);
    }
    n
}

// The whole list goes to standard output, in one piece; the answer is the status.
pub(crate) fn write(rt: &HostRuntime, issues: &[u16; 255]) -> u8 {
    let mut room = io::buffer();
    let n = put_issues(&mut room, issues);
    if console::out::write(rt, b"issues", &room[..n]) {
        0
    } else {
        1
    }
}
