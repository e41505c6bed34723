// Which places a call looks at, and where a part is kept.
#![tactic(auto)]

ghost use Rattle.std.specs.Prelude.{◌≡◌};
ghost use Rattle.memory.specs.Relay.{desks_of};
ghost use Rattle.looks.specs.Looks.{reach_of, reach_at, reach_for, spot_in};

use asks::Arrival;
use paper::Sender;
use paper::limits::{DESKS_MOST, PLACES_EACH};
use sample::Place;
use unit::Reading;

// How many of the places that are lent are the desks'; none where their number is improper.
fn all(marks: &[u32], len: usize) -> usize
    ensures { result ≡ reach_of (desks_of marks.now) len }
{
    let n = gate::desks_of(marks);
    if DESKS_MOST < n {
        0
    } else {
        (PLACES_EACH * n).min(len)
    }
}

// The same at a known time, and else none.
pub fn reach(marks: &[u32], who: Sender, len: usize) -> usize
    ensures { result ≡ reach_at (desks_of marks.now) who.time len }
{
    match who.time {
        Some(_) => all(marks, len),
        None => 0,
    }
}

// The same where the unit names a sample, and else none.
pub fn reach_for(marks: &[u32], who: Sender, len: usize, r: Reading) -> usize
    ensures { result ≡ reach_for (desks_of marks.now) who.time len r.unit }
{
    if asks::is_text(r) {
        reach(marks, who, len)
    } else {
        0
    }
}

// Where a part is kept: in the place of its sample among the first m, else in the lowest free one, if the part does not end its sample at
// once.
pub fn spot(t: &[Place], m: usize, who: Sender, x: Arrival) -> Option<usize>
    ensures { result ≡ spot_in who.desk who.time m x.part.total t.now }
{
    match finds::find(t, m, who) {
        Some(at) => Some(at),
        None if 1 < x.part.total => finds::lowest(t, m),
        None => None,
    }
}
