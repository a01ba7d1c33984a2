// Logs of bytes: their pieces go through the table.
use crate::frames::{How, count_frame};
use crate::heard::{Failed, Heard};
use crate::stream::Stream;
use console::put::cursor_in;

// The next piece of what is left goes to the ledger of its PRN; the answer is its length.
fn take_piece(
    rt: &HostRuntime,
    program: &[u8],
    left: &[u8],
    how: How,
    heard: &mut Heard,
) -> Result<usize, Failed> {
    let step = table_log::take_next(&mut heard.table, left);
    let n = cursor_in(left, usize::from(step.length));
    count_frame(rt, program, &left[..n], step.verdict, how, heard)?;
    Ok(n)
}

// All pieces of a stream.
fn all_pieces(
    rt: &HostRuntime,
    program: &[u8],
    mut stream: Stream,
    room: &mut [u8],
    how: How,
    heard: &mut Heard,
) -> Result<(), Failed> {
    for _ in 0..100000000000000000u64 {
        stream.fill(rt, program, room)?;
        let left = stream.left(room);
        if left.is_empty() {
            return Ok(());
        }
        let n = take_piece(rt, program, left, how, heard)?;
        stream.take(n);
    }
    Err(Failed)
}

// The logs from argument i on, of count, in order.
pub(crate) fn take_logs(
    rt: &HostRuntime,
    program: &[u8],
    i: usize,
    count: usize,
    how: How,
    heard: &mut Heard,
) -> Result<(), Failed> {
    let mut room = io::large_buffer();
    all_pieces(rt, program, Stream::new(i, count), &mut room, how, heard)
}
