// The units that come in one piece: TYPE 1 and TYPE 5.
#![tactic(auto)]

ghost use Rattle.std.specs.Prelude.{◌≡◌, List, ℕ};
ghost use Rattle.sample.specs.declared.Place.{Place};
ghost use Rattle.desk.specs.Desk.{own, turn, left, later, whole_taken, description_taken};

use paper::limits::SAMPLE_MOST;
use paper::{Answer, Facts, Outcome, Refusal, Time};
use unit::{Description, Whole};

// TYPE 1.
pub fn take_whole(
    is_open: bool,
    row: &mut [u32],
    marks: &mut [u32],
    time: u32,
    used: usize,
    w: Whole,
    d: &[u8],
    out: &mut [u8],
) -> Answer
    ensures { (p : Place) (store : List ℕ) → p.used ≡ is_open
        → left (turn p result) row.new marks.new store out.new
        ≡ whole_taken (own p row.old marks.old store out.old) time used
        (later time w.sdur) w d.now }
{
    let next = asks::add_time(time, w.sdur);
    if asks::is_late(row, marks, time) {
        return asks::says(used, next, Outcome::Refused(Refusal::Late));
    }
    if is_open {
        return asks::says(used, next, Outcome::Refused(Refusal::Conflict));
    }
    if SAMPLE_MOST < w.len {
        return asks::says(used, next, Outcome::Refused(Refusal::Size));
    }
    octets::put(out, 0, d);
    ends::finish(row, marks, time);
    let facts = Facts {
        time,
        u: w.u,
        sidx: w.sidx,
        sdur: w.sdur,
        string: w.tlen,
        sample: w.len,
    };
    asks::says(used, next, Outcome::Whole(facts))
}

// TYPE 5.
pub fn take_description(
    marks: &mut [u32],
    store: &mut [u8],
    t: Time,
    used: usize,
    w: Description,
    d: &[u8],
) -> Answer
    ensures { (p : Place) (row out : List ℕ) → left (turn p result) row marks.new store.new out
        ≡ description_taken (own p row marks.old store.old out) t used w d.now }
{
    let r = notes::note(store, octets::word(marks, 1) as usize, w.sidx, d);
    octets::put_word(marks, 1, (r.newest % 4294967296) as u32);
    asks::says(used, t, r.outcome)
}
