// A desk's finished times: its own sixteen numbers of the lent row, the oldest first, with how many of them are in use.
#![tactic(auto)]

ghost use Rattle.std.specs.Prelude.{◌≡◌};
ghost use Rattle.finished.specs.Times.{times_of, late, moved_row, marked_row, marked_used};

use paper::limits::FINISHED_MOST;

// The numbers of a row that are in use: no more than sixteen, and no more than there are.
fn held(row: &[u32], used: usize) -> &[u32]
    ensures { result.now ≡ times_of row.now used }
{
    octets::cut(row, 0, used.min(FINISHED_MOST))
}

// Whether the time is a finished one. The search is not left early, as `contains` leaves it, so that the compiler makes it several numbers
// wide.
pub fn is_late(row: &[u32], used: usize, time: u32) -> bool
    ensures { result ≡ late row.now used time }
{
    let times = held(row, used);
    let mut hit = false;
    for x in times {
        hit |= *x == time;
    }
    hit
}

// The oldest goes, the others move down, and the time is the last: from the last to the first each number goes to the place before it. With
// `copy_within` the library for C would ask its callers for `memmove`.
fn move_down(row: &mut [u32], time: u32)
    ensures { row.new ≡ moved_row row.old time }
{
    let n = row.len().min(FINISHED_MOST);
    let mut next = time;
    for k in 0..n {
        let at = n - 1 - k;
        let moved = row[at];
        row[at] = next;
        next = moved;
    }
}

// Marks the time finished, and answers how many are in use afterwards.
#[tactic(auto, using(laws::specs::Rows::rows), unfolding(crate::specs::Times::marked_row, crate::specs::Times::marked_used))]
pub fn mark(row: &mut [u32], used: usize, time: u32) -> usize
    ensures { (row.new ≡ marked_row row.old used time) × (result ≡ marked_used used) }
{
    if used < FINISHED_MOST {
        octets::put_word(row, used, time);
        return used + 1;
    }
    move_down(row, time);
    FINISHED_MOST
}
