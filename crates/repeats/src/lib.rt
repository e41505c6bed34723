// Whether a part repeats the kept one of its THIS.
#![tactic(auto)]

ghost use Rattle.std.specs.Prelude.{◌≡◌};
ghost use Rattle.sample.specs.Place.{stands, repeats};

use sample::Place;
use unit::Part;

// Whether part `this` is kept, with that TYPE and data.
#[tactic(auto, using(crate::proofs::Number::numbered))]
fn stands(p: &Place, this: usize, kind: usize, d: &[u8]) -> bool
    ensures { result ≡ stands p.now this kind d.now }
{
    if !parts::has(p, this) {
        return false;
    }
    let k = this - 1;
    p.kinds[k] == kind && octets::cut(&p.bytes, p.starts[k], p.lens[k]) == d
}

// Whether the part, with the data d, is a repeat.
pub fn repeats(p: &Place, x: Part, d: &[u8]) -> bool
    ensures { result ≡ repeats p.now x d.now }
{
    stands(p, x.this, x.kind, d) && parts::agrees(p, x)
}
