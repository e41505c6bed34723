// A part is kept; and how many are still missing.
#![tactic(auto)]

ghost use Rattle.std.specs.Prelude.{◌≡◌};
ghost use Rattle.sample.specs.Place.{kept, missing};

use paper::limits::{PARTS_MOST, SAMPLE_MOST};
use sample::Place;
use unit::Part;

// The part, with the data d, is kept; the first of TYPE 2 tells U, SIDX and SLEN.
pub fn keep(p: &mut Place, x: Part, d: &[u8])
    ensures { p.new ≡ kept p.old x d.now }
{
    if x.this == 0 || PARTS_MOST < x.this {
        return;
    }
    let k = x.this - 1;
    let at = p.filled;
    p.mask |= 1 << k;
    p.filled = at.saturating_add(d.len()).min(SAMPLE_MOST);
    p.kinds[k] = x.kind;
    p.starts[k] = at;
    p.lens[k] = d.len();
    octets::put(&mut p.bytes, at, d);
    if !p.told && x.kind == 2 {
        p.told = true;
        p.u = x.u;
        p.sidx = x.sidx;
        p.slen = x.slen;
    }
}

// How many parts are still missing.
#[tactic(auto, unfolding(sample::specs::Place::missing))]
pub fn missing(p: &Place) -> usize
    ensures { result ≡ missing p.now }
{
    p.total.saturating_sub(p.mask.count_ones() as usize)
}
