// A call with a part: 1 and 2, then the desk's own things are lent to what takes it, by the shares that are stored; and its place is
// counted.
#![tactic(auto)]

ghost use Rattle.std.specs.Prelude.{◌≡◌, false, List, ℕ, ◌<◌, length};
ghost use Rattle.sample.specs.Place.{closed};
ghost use Rattle.asks.specs.Settled.{open_in};
ghost use Rattle.steps.specs.Plan.{plan, part_planned, laid_plan, counted_plan};

use asks::Arrival;
use paper::{Answer, Outcome, Sender};
use sample::Place;

// Settles a call with a part over a place: its sample's, or the free one that it may open.
pub fn step(
    table: usize,
    p: &mut Place,
    rows: &mut [u32],
    marks: &mut [u32],
    store_len: usize,
    who: Sender,
    x: Arrival,
    rest: &[u8],
    out: &mut [u8],
) -> Answer
    requires { p.old.used ≡ false → 1 < x.part.total }
    ensures { (stores : List ℕ) → length stores ≡ store_len
        → plan p.new result rows.new marks.new stores out.new
        ≡ counted_plan who.desk p.old.used (laid_plan p.old
        (part_planned table (open_in p.old) rows.old marks.old stores out.old who x rest.now)) }
{
    let t = who.time;
    let g = gate::gate_at(table, rows, marks, store_len, who.desk, out);
    match g {
        Err(why) => asks::says(0, t, Outcome::Refused(why)),
        Ok(()) => {
            let h = tally::shares(marks, gate::desks_of(marks), who.desk);
            let d = octets::cut(rest, x.part.start, x.part.len);
            let was = p.used;
            let answer = settle::take_part(
                h,
                who.desk,
                p,
                &mut rows[gate::row_of(who.desk)],
                &mut marks[gate::marks_of(who.desk)],
                t,
                x,
                d,
                out,
            );
            tally::count(marks, who.desk, was, p.used);
            answer
        }
    }
}

// Settles a call with a part for which no place is to be had or none is needed.
pub fn step_lost(
    table: usize,
    rows: &mut [u32],
    marks: &mut [u32],
    store_len: usize,
    who: Sender,
    x: Arrival,
    rest: &[u8],
    out: &mut [u8],
) -> Answer
    ensures { (stores : List ℕ) → length stores ≡ store_len
        → plan (part_planned table closed rows.old marks.old stores out.old who x
        rest.now).place result rows.new marks.new stores out.new
        ≡ part_planned table closed rows.old marks.old stores out.old who x
        rest.now }
{
    let t = who.time;
    let g = gate::gate_at(table, rows, marks, store_len, who.desk, out);
    match g {
        Err(why) => asks::says(0, t, Outcome::Refused(why)),
        Ok(()) => {
            let h = tally::shares(marks, gate::desks_of(marks), who.desk);
            let d = octets::cut(rest, x.part.start, x.part.len);
            settle::lose(
                h,
                who.desk,
                &mut rows[gate::row_of(who.desk)],
                &mut marks[gate::marks_of(who.desk)],
                t,
                x,
                d,
                out,
            )
        }
    }
}
