// How a command line ends, PRN ISSUES LOG..: the logs go through a table in which a ledger is open for each PRN.
ghost use Rattle.std.specs.Prelude.{◌≡◌, true, ◌+◌, ◌≤◌};

use crate::frames::How;
use crate::heard::{Failed, Heard};
use crate::prns::open_for;
use inputs::issue_file::{may_read_issues, read_issues};

// Whether all three are there, from argument i on, of count.
pub fn has_words(i: usize, count: usize) -> bool
    ensures { result ≡ true → i + 3 ≤ count }
{
    count >= 3 && i <= count - 3
}

// Whether ISSUES, argument i of count, and the logs behind it may be read; where not, it has been said why.
fn are_readable(rt: &HostRuntime, program: &[u8], i: usize, count: usize) -> bool {
    i < count
        && may_read_issues(rt, program, i)
        && inputs::files::all_readable(rt, program, i + 1, count)
}

// PRN, ISSUES and the logs are the arguments from i on, of count, and all three are there; nothing was heard before.
pub fn take_night(
    rt: &HostRuntime,
    program: &[u8],
    i: usize,
    count: usize,
    how: How,
    heard: &mut Heard,
) -> Result<(), Failed> {
    if !has_words(i, count) {
        return Err(Failed);
    }
    open_for(rt, program, i, how.several, heard)?;
    if !are_readable(rt, program, i + 1, count)
        || !read_issues(rt, program, i + 1, &mut heard.issues)
    {
        return Err(Failed);
    }
    if how.mixed {
        crate::mixed::take_logs(rt, program, i + 2, count, how, heard)
    } else {
        crate::plain::take_logs(rt, program, i + 2, count, how, heard)
    }
}
