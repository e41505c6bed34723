// A call that opens no place, with a unit that is no part or a give-up: 1 and 2, then the desk's own things are lent to what settles it.
#![tactic(auto)]

ghost use Rattle.std.specs.Prelude.{◌≡◌};
ghost use Rattle.sample.specs.declared.Place.{Place};
ghost use Rattle.steps.specs.Plan.{plan, pass_planned, yield, yielding, place_after};

use paper::{Answer, Name, Outcome, Refusal, Sender};
use unit::Reading;

// Settles a call with a unit that is no part: of the places it hears only whether the sender's sample is open.
pub fn pass_step(
    table: usize,
    is_open: bool,
    rows: &mut [u32],
    marks: &mut [u32],
    stores: &mut [u8],
    who: Sender,
    r: Reading,
    rest: &[u8],
    out: &mut [u8],
) -> Answer
    ensures { (p : Place) → p.used ≡ is_open
        → plan p result rows.new marks.new stores.new out.new
        ≡ pass_planned table p rows.old marks.old stores.old out.old who r
        rest.now }
{
    let t = who.time;
    let g = gate::gate_at(table, rows, marks, stores.len(), who.desk, out);
    match g {
        Err(why) => asks::says(0, t, Outcome::Refused(why)),
        Ok(()) => {
            others::pass(
                is_open,
                &mut rows[gate::row_of(who.desk)],
                &mut marks[gate::marks_of(who.desk)],
                &mut stores[gate::store_of(who.desk)],
                t,
                r,
                rest,
                out,
            )
        }
    }
}

// Settles a give-up, and counts its place: behind 1 it is free, or there was none.
pub fn yield_step(
    table: usize,
    is_open: bool,
    rows: &mut [u32],
    marks: &mut [u32],
    who: Name,
) -> Result<(), Refusal>
    ensures { (p : Place) → p.used ≡ is_open
        → yield (place_after result p) result rows.new marks.new
        ≡ yielding table p rows.old marks.old who }
{
    let n = gate::desks_of(marks);
    if gate::is_stranger(n, who.desk) || gate::lacks_three(n, table, rows.len(), marks.len()) {
        return Err(Refusal::Desk);
    }
    let g = ends::give_up(
        is_open,
        &mut rows[gate::row_of(who.desk)],
        &mut marks[gate::marks_of(who.desk)],
        who.time,
    );
    tally::count(marks, who.desk, is_open, false);
    g
}
