// What stands before the reports of several PRNs: what became of all pieces and subframes.
ghost use Rattle.io.specs.Counts.{IsPrefixLen};

use crate::options::Options;
use log_files::heard::Heard;
use report_lines::counts::{put_frames, put_tally};
use report_lines::subframes::put_subframes;

// What became of all pieces and subframes, where there are several PRNs and the table does not stand alone.
pub(crate) fn put_before(room: &mut [u8], heard: &Heard, o: Options) -> usize
    ensures { IsPrefixLen result room.new }
{
    let a = heard.accounts;
    if o.csv || a.count == 1 {
        return 0;
    }
    let b = put_frames(room, 0, a.all, a.taken);
    let c = put_tally(room, b, &heard.tally);
    put_subframes(room, c, heard, o.mixed)
}
