// Whether a complete sample is joined or spoiled: the order of its parts' TYPEs, and its length.
#![tactic(auto)]

ghost use Rattle.std.specs.Prelude.{◌≡◌};
ghost use Rattle.laws.specs.Rows.{◌and◌, ◌=?◌};
ghost use Rattle.joining.specs.Joining.{kinds, ordered};
ghost use Rattle.sample.specs.Order.{follows};
ghost use Rattle.sample.specs.Place.{pieces_of};

use paper::limits::PARTS_MOST;
use sample::Place;

// Whether a part of that TYPE may stand behind one of the last TYPE; before the first stands 0.
#[tactic(auto, using(laws::specs::Rows::rows), unfolding(sample::specs::Order::follows))]
fn follows(last: usize, kind: usize) -> bool
    ensures { result ≡ follows last kind }
{
    match last {
        0 => kind == 2,
        2 => kind == 2 || kind == 3,
        _ => kind == 4,
    }
}

// Whether the TYPEs are one or more 2, then nothing, or one 3 and any number of 4.
fn is_ordered(kinds: &[usize]) -> bool
    ensures { result ≡ ordered kinds.now }
{
    let mut last = 0;
    for &kind in kinds {
        if !follows(last, kind) {
            return false;
        }
        last = kind;
    }
    last != 0
}

// Whether the complete sample, so long, is joined, else it is spoiled.
pub fn is_sound(p: &Place, many: usize) -> bool
    ensures { result ≡ (ordered (kinds (pieces_of p.now)) and many =? p.now.slen) }
{
    let n = p.total.min(PARTS_MOST);
    is_ordered(&p.kinds[..n]) && many == p.slen
}
