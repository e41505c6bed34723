// A part of a sample that is open.
#![tactic(auto)]

ghost use Rattle.std.specs.Prelude.{◌≡◌, true, List, ℕ};
ghost use Rattle.paper.specs.Time.{Time};
ghost use Rattle.desk.specs.Desk.{own, answering, left, joining};

use desk::Shares;
use paper::{Outcome, Refusal};
use sample::Place;
use unit::Part;

// TYPE 2, 3 and 4 of the open sample p: no share is asked.
pub fn join(
    p: &mut Place,
    row: &mut [u32],
    marks: &mut [u32],
    time: u32,
    x: Part,
    d: &[u8],
    out: &mut [u8],
) -> Outcome
    requires { p.old.used ≡ true }
    ensures { (h : Shares) (used : ℕ) (next : Time) (store : List ℕ)
        → left (answering p.new used next result) row.new marks.new store out.new
        ≡ joining h (own p.old row.old marks.old store out.old) time used next p.old x
        d.now }
{
    if asks::is_late(row, marks, time) {
        return Outcome::Refused(Refusal::Late);
    }
    if repeats::repeats(p, x, d) {
        return Outcome::Repeat;
    }
    if asks::does_conflict(p, x) {
        return Outcome::Refused(Refusal::Conflict);
    }
    if parts::oversize(p, x, d.len()) {
        return Outcome::Refused(Refusal::Size);
    }
    keeps::keep(p, x, d);
    ends::complete(p, row, marks, time, out)
}
