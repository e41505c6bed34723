// What a call asks of one desk's own things, one question a function, and how it says its answer.
#![tactic(auto)]

ghost use Rattle.std.specs.Prelude.{◌≡◌};
ghost use Rattle.finished.specs.Times.{late};
ghost use Rattle.sample.specs.Place.{closed};
ghost use Rattle.desk.specs.Desk.{in_use, says, is_text, is_part, later, later_part, conflicts, six, used_up};
ghost use Rattle.asks.specs.Settled.{barred, arrival_of};

use desk::Shares;
use paper::limits::{OPEN_MOST, OWN_PLACES};
use paper::{Answer, Outcome, Refusal, Time};
use sample::Place;
use unit::{Part, Reading, Unit};

// A part as it came: the bytes that it uses, and the part.
#[derive(Clone, Copy)]
pub struct Arrival {
    pub used: usize,
    pub part: Part,
}

const NO_PART: Part = Part {
    kind: 0,
    total: 0,
    this: 0,
    sdur: 0,
    u: 0,
    sidx: 0,
    slen: 0,
    start: 0,
    len: 0,
};

pub fn says(used: usize, next: Time, outcome: Outcome) -> Answer
    ensures { result ≡ says used next outcome }
{
    Answer {
        used,
        next,
        outcome,
    }
}

pub fn is_late(row: &[u32], marks: &[u32], time: u32) -> bool
    ensures { result ≡ late row.now (in_use marks.now) time }
{
    finished::is_late(row, octets::word(marks, 0) as usize, time)
}

pub fn add_time(time: u32, sdur: usize) -> Time
    ensures { result ≡ later time sdur }
{
    if sdur == 0 {
        return None;
    }
    Some(time.wrapping_add((sdur % 4294967296) as u32))
}

pub fn next_time(time: u32, x: Part) -> Time
    ensures { result ≡ later_part time x }
{
    if x.this == x.total {
        add_time(time, x.sdur)
    } else {
        Some(time)
    }
}

pub fn does_conflict(q: &Place, x: Part) -> bool
    ensures { result ≡ conflicts q.now x }
{
    parts::has(q, x.this) || !parts::agrees(q, x)
}

fn has_six(h: Shares) -> bool
    ensures { result ≡ six closed h }
{
    OPEN_MOST - 1 < h.opens
}

fn is_used_up(h: Shares) -> bool
    ensures { result ≡ used_up closed h }
{
    OWN_PLACES <= h.opens && (h.common % 2 == 0 && h.common / 2 == h.desks)
}

// What bars a part that opens a sample, in the order of refusals.
pub fn find_bar(late: bool, over: bool, h: Shares) -> Result<(), Refusal>
    ensures { result ≡ barred late over h }
{
    if late {
        return Err(Refusal::Late);
    }
    if over {
        return Err(Refusal::Size);
    }
    if has_six(h) {
        return Err(Refusal::Six);
    }
    if is_used_up(h) {
        return Err(Refusal::Common);
    }
    Ok(())
}

// Whether the unit is a part.
pub fn is_part(r: Reading) -> bool
    ensures { result ≡ is_part r.unit }
{
    matches!(r.unit, Unit::Part(_))
}

// Whether the unit names a sample: TYPE 1 to 4.
pub fn is_text(r: Reading) -> bool
    ensures { result ≡ is_text r.unit }
{
    matches!(r.unit, Unit::Whole(_) | Unit::Part(_))
}

// The part that was read, with the bytes that it uses; zeros where it is none. No Option: it can't fail, and `arrival_of` says the zeros.
pub fn arrived(r: Reading) -> Arrival
    ensures { result ≡ arrival_of r }
{
    let part = match r.unit {
        Unit::Part(x) => x,
        _ => NO_PART,
    };
    Arrival { used: r.used, part }
}
