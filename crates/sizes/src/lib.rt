// How much a caller lends: the bytes of a place, and what n desks need, in elements; 0 where n is not 1 to 8.
#![tactic(auto)]

ghost use Rattle.std.specs.Prelude.{◌≡◌, ℕ, ◌*◌, ◌≤◌};
ghost use Rattle.paper.specs.Limits.{store_size, places, rows_need, marks_need, stores_need};
ghost use Rattle.sizes.specs.Sizes.{place_size, needed};

use paper::limits::{FINISHED_MOST, HEAD_SIZE, MARKS_EACH, PLACES_EACH, STORE_SIZE};
use sample::Place;

// So many for each of n desks; 0 where there is no relay for n desks, since the C interface has no Option.
fn size_for(n: usize, each: usize) -> usize
    requires { each ≤ store_size }
    ensures { result ≡ needed (λ (m : ℕ). each * m) n }
{
    if gate::is_improper(n) {
        return 0;
    }
    each * n
}

// The bytes of a place.
pub fn place() -> usize
    ensures { result ≡ place_size }
{
    size_of::<Place>()
}

pub fn places(n: usize) -> usize
    ensures { result ≡ needed places n }
{
    size_for(n, PLACES_EACH)
}

pub fn rows(n: usize) -> usize
    ensures { result ≡ needed rows_need n }
{
    size_for(n, FINISHED_MOST)
}

pub fn marks(n: usize) -> usize
    ensures { result ≡ needed marks_need n }
{
    if gate::is_improper(n) {
        return 0;
    }
    HEAD_SIZE + MARKS_EACH * n
}

pub fn stores(n: usize) -> usize
    ensures { result ≡ needed stores_need n }
{
    size_for(n, STORE_SIZE)
}
