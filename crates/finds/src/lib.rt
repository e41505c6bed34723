// Where a place stands among the first m of the lent table: the sender's sample, the lowest free one.
#![tactic(auto)]

ghost use Rattle.std.specs.Prelude.{◌≡◌, take};
ghost use Rattle.memory.specs.Table.{vacant, is_time, is_at};
ghost use Rattle.table.specs.Table.{place_where};

use paper::Sender;
use sample::Place;

// Whether a place, used or not, bears the sender's time.
pub fn bears(when: u32, who: Sender) -> bool
    ensures { result ≡ is_time who.time when }
{
    match who.time {
        Some(time) => when == time,
        None => false,
    }
}

// Whether a place is the sender's sample: the time is compared first, since it differs most often.
fn is_of(p: &Place, who: Sender) -> bool
    ensures { result ≡ is_at who.desk who.time p.now }
{
    bears(p.time, who) && p.used && p.desk == who.desk
}

// The place of the sender's sample among the first m.
pub fn find(t: &[Place], m: usize, who: Sender) -> Option<usize>
    ensures { result ≡ place_where (is_at who.desk who.time) (take m t.now) }
{
    t[..t.len().min(m)].iter().position(|p| is_of(p, who))
}

// The lowest free place of the first m.
pub fn lowest(t: &[Place], m: usize) -> Option<usize>
    ensures { result ≡ place_where vacant (take m t.now) }
{
    t[..t.len().min(m)].iter().position(|p| !p.used)
}
