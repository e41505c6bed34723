// What a part is to an open sample, by its numbers: whether its THIS is kept, whether it agrees, whether it is too much.
#![tactic(auto)]

ghost use Rattle.std.specs.Prelude.{◌≡◌, ℕ};
ghost use Rattle.laws.specs.Rows.{◌or◌, ◌and◌, ◌<?◌, ◌=?◌};
ghost use Rattle.paper.specs.Limits.{sample_most};
ghost use Rattle.sample.specs.Place.{has, alike, agrees, oversize, opened};

use paper::limits::{PARTS_MOST, SAMPLE_MOST};
use sample::Place;
use unit::Part;

// Whether part `this` is kept.
pub fn has(p: &Place, this: usize) -> bool
    ensures { result ≡ has p.now this }
{
    match this {
        1..=PARTS_MOST => (p.mask >> (this - 1)) % 2 == 1,
        _ => false,
    }
}

// Whether a TYPE 2 part says what an earlier one told.
fn alike(p: &Place, x: Part) -> bool
    ensures { result ≡ alike p.now x }
{
    (p.u, p.sidx, p.slen) == (x.u, x.sidx, x.slen)
}

// Whether the part agrees with the sample.
pub fn agrees(p: &Place, x: Part) -> bool
    ensures { result ≡ agrees p.now x }
{
    (p.total, p.sdur) == (x.total, x.sdur) && (x.kind != 2 || !p.told || alike(p, x))
}

// Refusal 5 for what the part itself tells, with that many bytes kept.
#[tactic(auto, using(laws::specs::Rows::rows))]
fn exceeds(x: Part, sum: usize) -> bool
    ensures { result ≡ (sample_most <? sum or x.kind =? 2 and (sample_most <? x.slen or x.slen <? sum)) }
{
    SAMPLE_MOST < sum || x.kind == 2 && (SAMPLE_MOST < x.slen || x.slen < sum)
}

// Refusal 5, for the part with n bytes of data.
pub fn oversize(p: &Place, x: Part, n: usize) -> bool
    ensures { result ≡ oversize p.now x n }
{
    let sum = p.filled.saturating_add(n);
    exceeds(x, sum) || p.told && p.slen < sum
}

// The same for a part that opens its sample: nothing is kept yet, and nothing told.
pub fn is_too_much(x: Part, n: usize) -> bool
    ensures { (desk time : ℕ) → result ≡ oversize (opened desk time x) x n }
{
    exceeds(x, n)
}
