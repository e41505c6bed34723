// A place of the lent table is closed; the first m are.
#![tactic(auto)]

ghost use Rattle.std.specs.Prelude.{◌≡◌};
ghost use Rattle.sample.specs.Place.{closed};
ghost use Rattle.table.specs.Table.{stored, cleared};

use sample::Place;

// Closes place i of the first m; past them, nothing.
pub fn free(t: &mut [Place], m: usize, i: usize)
    ensures { t.new ≡ stored m i closed t.old }
{
    if i < m && i < t.len() {
        t[i] = bare::closed();
    }
}

// Closes the first m places.
pub fn clear(t: &mut [Place], m: usize)
    ensures { t.new ≡ cleared m t.old }
{
    let n = t.len().min(m);
    t[..n].fill(bare::closed());
}
