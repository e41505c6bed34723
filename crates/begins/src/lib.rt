// A part that opens a sample.
#![tactic(auto)]

ghost use Rattle.std.specs.Prelude.{◌≡◌, false, List, ℕ, ◌<◌};
ghost use Rattle.paper.specs.Time.{Time};
ghost use Rattle.sample.specs.Place.{closed, opened};
ghost use Rattle.desk.specs.Desk.{own, answering, left, joining};
ghost use Rattle.asks.specs.Settled.{laid_in};

use desk::Shares;
use paper::Outcome;
use sample::Place;
use unit::Part;

// TYPE 2, 3 and 4 of a sample that is not open, over a free place: a part that is refused leaves the place as it stood. Of more parts than
// one it completes nothing.
pub fn open(
    h: Shares,
    desk: usize,
    p: &mut Place,
    row: &[u32],
    marks: &[u32],
    time: u32,
    x: Part,
    d: &[u8],
) -> Outcome
    requires { (p.old.used ≡ false) × (1 < x.total) }
    ensures { (used : ℕ) (next : Time) (store out : List ℕ)
        → left (answering p.new used next result) row.now marks.now store out
        ≡ laid_in p.old
        (joining h (own closed row.now marks.now store out) time used next (opened desk time x) x
        d.now) }
{
    let late = asks::is_late(row, marks, time);
    match asks::find_bar(late, parts::is_too_much(x, d.len()), h) {
        Err(why) => Outcome::Refused(why),
        Ok(()) => {
            *p = bare::opened(desk, time, x);
            keeps::keep(p, x, d);
            Outcome::Kept(keeps::missing(p))
        }
    }
}
