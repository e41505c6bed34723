// How long the parts of a complete sample are in THIS order, put together: its string, and all of it.
#![tactic(auto)]

ghost use Rattle.std.specs.Prelude.{◌≡◌, length};
ghost use Rattle.joining.specs.Joining.{together, string_of};
ghost use Rattle.sample.specs.Place.{pieces_of};

use paper::limits::PARTS_MOST;
use sample::{Lengths, Place};

// How long the parts in THIS order are, put together.
pub fn measure(p: &Place) -> Lengths
    ensures { (result.string ≡ length (string_of (pieces_of p.now)))
        × (result.sample ≡ length (together (pieces_of p.now))) }
{
    let n = p.total.min(PARTS_MOST);
    let mut string = 0;
    let mut sample = 0;
    for k in 0..n {
        let many = octets::cut(&p.bytes, p.starts[k], p.lens[k]).len();
        if p.kinds[k] == 2 {
            string += many;
        }
        sample += many;
    }
    Lengths { string, sample }
}
