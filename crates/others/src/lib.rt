// A unit that is no part: it goes to what takes it, or is told.
#![tactic(auto)]

ghost use Rattle.std.specs.Prelude.{◌≡◌, List, ℕ};
ghost use Rattle.sample.specs.declared.Place.{Place};
ghost use Rattle.desk.specs.Desk.{own, turn, left, whole_at};
ghost use Rattle.asks.specs.Settled.{passed};

use paper::{Answer, Outcome, Refusal, Time};
use unit::{Reading, Unit, Whole};

// TYPE 1: 18, or it is taken at its time.
fn whole_at(
    is_open: bool,
    row: &mut [u32],
    marks: &mut [u32],
    t: Time,
    used: usize,
    w: Whole,
    d: &[u8],
    out: &mut [u8],
) -> Answer
    ensures { (p : Place) (store : List ℕ) → p.used ≡ is_open
        → left (turn p result) row.new marks.new store out.new
        ≡ whole_at (own p row.old marks.old store out.old) t used w d.now }
{
    match t {
        Some(time) => singles::take_whole(is_open, row, marks, time, used, w, d, out),
        None => asks::says(used, None, Outcome::Refused(Refusal::Untimed)),
    }
}

// Takes a unit that is no part: it looks at no place, only whether a sample is open at this time. Of a part it takes nothing.
pub fn pass(
    is_open: bool,
    row: &mut [u32],
    marks: &mut [u32],
    store: &mut [u8],
    t: Time,
    r: Reading,
    rest: &[u8],
    out: &mut [u8],
) -> Answer
    ensures { (p : Place) → p.used ≡ is_open
        → left (turn p result) row.new marks.new store.new out.new
        ≡ passed (own p row.old marks.old store.old out.old) t r
        rest.now }
{
    let used = r.used;
    match r.unit {
        Unit::End => asks::says(used, t, Outcome::End),
        Unit::Skipped(kind) => asks::says(used, t, Outcome::Skipped(kind)),
        Unit::Refused(why) => asks::says(used, t, Outcome::Refused(why)),
        Unit::Whole(w) => {
            let d = octets::cut(rest, w.start, w.len);
            whole_at(is_open, row, marks, t, used, w, d, out)
        }
        Unit::Part(_) => asks::says(0, t, Outcome::End),
        Unit::Description(w) => {
            let d = octets::cut(rest, w.start, w.len);
            singles::take_description(marks, store, t, used, w, d)
        }
    }
}
