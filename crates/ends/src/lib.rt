// A sample ends: all its parts are there, and it is joined or spoiled, or it is given up. Its time is marked finished.
#![tactic(auto)]

ghost use Rattle.std.specs.Prelude.{◌≡◌, List, ℕ, set};
ghost use Rattle.laws.specs.Rows.{◌⇒◌⁏◌};
ghost use Rattle.paper.specs.Time.{Time};
ghost use Rattle.finished.specs.Times.{marked_row, marked_used};
ghost use Rattle.sample.specs.declared.Place.{Place};
ghost use Rattle.sample.specs.Place.{closed};
ghost use Rattle.desk.specs.Desk.{in_use, own, answering, left, completed, freed, given_up};

use paper::{Facts, Outcome, Refusal};
use sample::Place;

pub fn finish(row: &mut [u32], marks: &mut [u32], time: u32)
    ensures { (row.new ≡ marked_row row.old (in_use marks.old) time)
        × (marks.new ≡ set marks.old 0 (marked_used (in_use marks.old))) }
{
    let used = finished::mark(row, octets::word(marks, 0) as usize, time);
    octets::put_word(marks, 0, used as u32);
}

// The part is kept in p: parts are missing still, or the sample is joined or spoiled, and its place is free.
pub fn complete(
    p: &mut Place,
    row: &mut [u32],
    marks: &mut [u32],
    time: u32,
    out: &mut [u8],
) -> Outcome
    ensures { (q : Place) (used : ℕ) (next : Time) (store : List ℕ)
        → left (answering p.new used next result) row.new marks.new store out.new
        ≡ completed (own q row.old marks.old store out.old) time used next p.old }
{
    let missing = keeps::missing(p);
    if 0 < missing {
        return Outcome::Kept(missing);
    }
    let l = lengths::measure(p);
    let outcome = if order::is_sound(p, l.sample) {
        together::put_together(p, out);
        Outcome::Joined(Facts {
            time,
            u: p.u,
            sidx: p.sidx,
            sdur: p.sdur,
            string: l.string,
            sample: l.sample,
        })
    } else {
        Outcome::Refused(Refusal::Spoiled)
    };
    *p = bare::closed();
    finish(row, marks, time);
    outcome
}

// Gives the sample of this time up, if one is open: its time is marked finished. The place is the caller's to free.
pub fn give_up(is_open: bool, row: &mut [u32], marks: &mut [u32], time: u32) -> Result<(), Refusal>
    ensures { (p : Place) (store out : List ℕ) → p.used ≡ is_open
        → freed (is_open ⇒ closed ⁏ p) result row.new marks.new store out
        ≡ given_up (own p row.old marks.old store out) time }
{
    if !is_open {
        return Err(Refusal::NotOpen);
    }
    finish(row, marks, time);
    Ok(())
}
