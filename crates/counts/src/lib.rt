// Whether a sample is open among the first m places of the lent table: it is searched only where a place bears its time.
#![tactic(auto)]

ghost use Rattle.std.specs.Prelude.{◌≡◌, take};
ghost use Rattle.laws.specs.Table.{count};
ghost use Rattle.memory.specs.Table.{is_at};
ghost use Rattle.table.specs.Table.{bears, holds};

use paper::Sender;
use sample::Place;

// How many of the first m places bear the time. No turn is left early, so that the compiler takes several places at once.
fn count(t: &[Place], m: usize, who: Sender) -> usize
    ensures { result ≡ count (bears who) (take m t.now) }
{
    let mut c = 0;
    for p in &t[..t.len().min(m)] {
        c += usize::from(finds::bears(p.time, who));
    }
    c
}

// Whether the sender's sample is open among the first m places. Most often none bears the time, and then none is searched.
pub fn is_open(t: &[Place], m: usize, who: Sender) -> bool
    ensures { result ≡ holds (is_at who.desk who.time) (take m t.now) }
{
    count(t, m, who) > 0 && finds::find(t, m, who).is_some()
}
