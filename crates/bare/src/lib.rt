// A place of which nothing is kept: a free one, and that of a new sample.
#![tactic(auto, unfolding(sample::specs::Place::bare))]

ghost use Rattle.std.specs.Prelude.{◌≡◌};
ghost use Rattle.sample.specs.Place.{bare, closed, opened};

use paper::limits::{PARTS_MOST, SAMPLE_MOST};
use sample::Place;
use unit::Part;

// A place of which nothing is kept.
fn bare(used: bool, desk: usize, time: u32, total: usize, sdur: usize) -> Place
    ensures { result ≡ bare used desk time total sdur }
{
    Place {
        used,
        desk,
        time,
        total,
        sdur,
        told: false,
        u: 0,
        sidx: 0,
        slen: 0,
        mask: 0,
        filled: 0,
        kinds: [0; PARTS_MOST],
        starts: [0; PARTS_MOST],
        lens: [0; PARTS_MOST],
        bytes: [0; SAMPLE_MOST],
    }
}

// The closed record.
pub fn closed() -> Place
    ensures { result ≡ closed }
{
    bare(false, 0, 0, 0, 0)
}

// The sample that part x opens, nothing kept yet.
pub fn opened(desk: usize, time: u32, x: Part) -> Place
    ensures { result ≡ opened desk time x }
{
    bare(true, desk, time, x.total, x.sdur)
}
