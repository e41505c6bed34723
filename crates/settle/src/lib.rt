// A part of one desk's sample, over that desk's own things: the place of its open sample or a free one, its finished times, its marks, the
// output.
#![tactic(auto)]

ghost use Rattle.std.specs.Prelude.{◌≡◌, false, List, ℕ, ◌<◌};
ghost use Rattle.desk.specs.Desk.{own, turn, left, later_part, part_taken, part_at};
ghost use Rattle.asks.specs.Settled.{open_in, laid_in, opening};

use asks::Arrival;
use desk::Shares;
use paper::{Answer, Outcome, Refusal, Time};
use sample::Place;

// TYPE 2, 3 and 4 at a known time, over a place: the desk's open sample of that time, or a free place that the part may open.
fn take_at(
    h: Shares,
    desk: usize,
    p: &mut Place,
    row: &mut [u32],
    marks: &mut [u32],
    time: u32,
    x: Arrival,
    d: &[u8],
    out: &mut [u8],
) -> Answer
    requires { p.old.used ≡ false → 1 < x.part.total }
    ensures { (store : List ℕ) → left (turn p.new result) row.new marks.new store out.new
        ≡ laid_in p.old
        (part_taken h (own (open_in p.old) row.old marks.old store out.old) desk time x.used
        (later_part time x.part) x.part d.now) }
{
    let outcome = if p.used {
        grows::join(p, row, marks, time, x.part, d, out)
    } else {
        begins::open(h, desk, p, row, marks, time, x.part, d)
    };
    asks::says(x.used, asks::next_time(time, x.part), outcome)
}

// TYPE 2, 3 and 4 over a place: 18, or the part is taken at its time.
pub fn take_part(
    h: Shares,
    desk: usize,
    p: &mut Place,
    row: &mut [u32],
    marks: &mut [u32],
    t: Time,
    x: Arrival,
    d: &[u8],
    out: &mut [u8],
) -> Answer
    requires { p.old.used ≡ false → 1 < x.part.total }
    ensures { (store : List ℕ) → left (turn p.new result) row.new marks.new store out.new
        ≡ laid_in p.old
        (part_at h (own (open_in p.old) row.old marks.old store out.old) desk t x.used x.part
        d.now) }
{
    match t {
        Some(time) => take_at(h, desk, p, row, marks, time, x, d, out),
        None => asks::says(x.used, None, Outcome::Refused(Refusal::Untimed)),
    }
}

// The same at a known time where no place is to be had or none is needed: nothing of the sample is kept in the table.
fn lose_at(
    h: Shares,
    desk: usize,
    row: &mut [u32],
    marks: &mut [u32],
    time: u32,
    x: Arrival,
    d: &[u8],
    out: &mut [u8],
) -> Answer
    ensures { (store : List ℕ)
        → left (turn (opening h row.old marks.old store out.old desk (Some time) x
        d.now).own.place result)
        row.new marks.new store out.new
        ≡ opening h row.old marks.old store out.old desk (Some time) x d.now }
{
    let late = asks::is_late(row, marks, time);
    let outcome = match asks::find_bar(late, parts::is_too_much(x.part, d.len()), h) {
        Err(why) => Outcome::Refused(why),
        Ok(()) => {
            let mut p = bare::opened(desk, time, x.part);
            keeps::keep(&mut p, x.part, d);
            ends::complete(&mut p, row, marks, time, out)
        }
    };
    asks::says(x.used, asks::next_time(time, x.part), outcome)
}

// The same where no place is to be had or none is needed: 18, or the part is taken at its time.
pub fn lose(
    h: Shares,
    desk: usize,
    row: &mut [u32],
    marks: &mut [u32],
    t: Time,
    x: Arrival,
    d: &[u8],
    out: &mut [u8],
) -> Answer
    ensures { (store : List ℕ)
        → left (turn (opening h row.old marks.old store out.old desk t x
        d.now).own.place result)
        row.new marks.new store out.new
        ≡ opening h row.old marks.old store out.old desk t x d.now }
{
    match t {
        Some(time) => lose_at(h, desk, row, marks, time, x, d, out),
        None => asks::says(x.used, None, Outcome::Refused(Refusal::Untimed)),
    }
}
