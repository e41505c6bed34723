// The parts of a complete sample in THIS order, put together.
#![tactic(auto)]

ghost use Rattle.std.specs.Prelude.{◌≡◌};
ghost use Rattle.std.proofs.lemmas.List.Edits.{sets};
ghost use Rattle.joining.specs.Joining.{together};
ghost use Rattle.sample.specs.Place.{pieces_of};

use paper::limits::PARTS_MOST;
use sample::Place;

// The parts in THIS order, to the front of the output; what lies behind them stays.
pub fn put_together(p: &Place, out: &mut [u8])
    ensures { out.new ≡ sets out.old 0 (together (pieces_of p.now)) }
{
    let n = p.total.min(PARTS_MOST);
    let mut at = 0;
    for k in 0..n {
        let data = octets::cut(&p.bytes, p.starts[k], p.lens[k]);
        octets::put(out, at, data);
        at += data.len();
    }
}
