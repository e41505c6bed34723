// Finished times: what marking leaves in a row, and which times are late.
use crate::{print, script};
use std::io;
use std::io::Print;

// A row of eighteen, of which sixteen are looked at.
pub(crate) const EIGHTEEN: [u32; 18] = [
    101, 102, 103, 104, 105, 106, 107, 108, 109, 110, 111, 112, 113, 114, 115, 116, 7, 8,
];

pub(crate) const THREE: [u32; 3] = [1, 2, 3];

fn row(rt: &impl Print, s: &[u32]) -> io::Result<()> {
    for time in s {
        print::number(rt, *time as usize)?;
    }
    Ok(())
}

// `mark USED TIME` over a row of eighteen, `mark-three USED TIME` over one of three: whether the time was late, how many are in use once
// it is marked, the row then, and whether the time is late now.
pub(crate) fn mark(rt: &impl Print, line: &[u8], s: &mut [u32]) -> io::Result<()> {
    let used = script::number(line, 1);
    let time = script::time(line, 2);
    print::answer(rt, finished::is_late(s, used, time))?;
    let now = finished::mark(s, used, time);
    print::number(rt, now)?;
    row(rt, s)?;
    print::answer(rt, finished::is_late(s, now, time))
}
