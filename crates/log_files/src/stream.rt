// The logs named on the command line, read as one stream: a frame may begin in one and end in the next.
ghost use Rattle.io.specs.Counts.{IsPrefixLen};

use crate::heard::Failed;
use console::args::argument;
use console::input::{Input, read_on};
use inputs::files::open_named;

// What was read and is not yet taken is room[from..to]. Of the log that is open, if one is, so many bytes were read; the log that comes next is
// argument next of count, and there is none after the stream's end.
#[derive(Drop)]
pub(crate) struct Stream {
    from: usize,
    to: usize,
    log: Option<Input>,
    read: u64,
    next: usize,
    count: usize,
    ended: bool,
}

// So many bytes decide where the next piece ends, whatever follows (theorem `near` of crate pieces).
const ENOUGH: usize = 250;

impl Stream {
    // Before the first log, which is argument i of count.
    pub(crate) fn new(i: usize, count: usize) -> Stream {
        Stream {
            from: 0,
            to: 0,
            log: None,
            read: 0,
            next: i,
            count,
            ended: false,
        }
    }

    // What stands in the room and is not yet taken.
    pub(crate) fn left<'a>(&self, room: &'a [u8]) -> &'a [u8] {
        let to = self.to.min(room.len());
        let from = self.from.min(to);
        &room[from..to]
    }

    // So many bytes of what stands in the room are taken.
    pub(crate) fn take(&mut self, n: usize) {
        self.from = self.from.saturating_add(n).min(self.to);
    }

    // The next log is opened, or the stream ends.
    fn open(&mut self, rt: &HostRuntime, program: &[u8]) -> Result<(), Failed> {
        let i = self.next;
        if i >= self.count {
            self.ended = true;
            return Ok(());
        }
        let mut path = io::buffer();
        let n = argument(rt, i, &mut path).count;
        let Some(log) = open_named(rt, program, &path[..n]) else {
            return Err(Failed);
        };
        self.log = Some(log);
        self.read = 0;
        self.next = i + 1;
        Ok(())
    }
}

// The name of the log before argument next, put into a room; the answer is its length.
fn name_into(rt: &HostRuntime, next: usize, room: &mut [u8]) -> usize
    ensures { IsPrefixLen result room.new }
{
    match next.checked_sub(1) {
        Some(i) => argument(rt, i, room).count,
        None => 0,
    }
}

impl Stream {
    // More of the open log is read into the room behind what stands there; at its end it is closed.
    fn read_on(&mut self, rt: &HostRuntime, program: &[u8], room: &mut [u8]) -> Result<(), Failed> {
        let Some(log) = &mut self.log else {
            return Ok(());
        };
        let p = read_on(log, room, self.to);
        if let Some(e) = p.error {
            let mut path = io::buffer();
            let n = name_into(rt, self.next, &mut path);
            console::say::say_errno_where(rt, program, &path[..n], b"offset", self.read, e);
            return Err(Failed);
        }
        if p.count <= self.to {
            self.log = None;
            return Ok(());
        }
        self.read = self.read.saturating_add((p.count - self.to) as u64);
        self.to = p.count;
        Ok(())
    }

    // What is not yet taken is moved to the room's start.
    fn move_down(&mut self, room: &mut [u8]) {
        let to = self.to.min(room.len());
        let from = self.from.min(to);
        room.copy_within(from..to, 0);
        self.from = 0;
        self.to = to - from;
    }

    // The stream is read on until there is enough in the room to tell where the next piece ends, or all that is left.
    pub(crate) fn fill(
        &mut self,
        rt: &HostRuntime,
        program: &[u8],
        room: &mut [u8],
    ) -> Result<(), Failed> {
        if self.to >= ENOUGH && self.from <= self.to - ENOUGH {
            return Ok(());
        }
        self.move_down(room);
        for _ in 0..100000000000000000u64 {
            if self.to >= ENOUGH || self.ended {
                break;
            }
            match self.log {
                Some(_) => self.read_on(rt, program, room)?,
                None => self.open(rt, program)?,
            }
        }
        Ok(())
    }
}
