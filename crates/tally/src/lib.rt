// The stored numbers in the head of the marks: how many samples each desk has open, and the common use. They are counted by one place,
// which was open or not before a call and is or not after it.
#![tactic(auto)]

ghost use Rattle.std.specs.Prelude.{◌≡◌, not, ◌+◌, ◌<◌};
ghost use Rattle.laws.specs.Table.{bit};
ghost use Rattle.paper.specs.Limits.{desks_most};
ghost use Rattle.memory.specs.Relay.{stored_shares, stepped, common_stepped, recounted};

use desk::Shares;
use paper::limits::{COMMON_AT, OPENS_AT, OWN_PLACES};

// The shares of one of n desks.
pub fn shares(marks: &[u32], n: usize, desk: usize) -> Shares
    requires { desk < desks_most }
    ensures { result ≡ stored_shares n desk marks.now }
{
    Shares {
        opens: octets::word(marks, OPENS_AT + desk) as usize,
        common: octets::word(marks, COMMON_AT) as usize,
        desks: n,
    }
}

// One more where the place is open now, one fewer where it was.
fn step(is: bool, k: u32) -> u32
    ensures { result ≡ stepped (not is) is k }
{
    if is {
        k.saturating_add(1)
    } else {
        k.saturating_sub(1)
    }
}

// How many the desk has open with this one, which the number does not count yet where it is open now, and counts where it was.
fn with_it(is: bool, opens: u32) -> usize
    ensures { result ≡ opens + bit is }
{
    opens as usize + usize::from(is)
}

// The same of the common use, where the desk had so many open.
fn common_step(is: bool, opens: u32, k: u32) -> u32
    ensures { result ≡ common_stepped (not is) is opens k }
{
    if OWN_PLACES < with_it(is, opens) {
        step(is, k)
    } else {
        k
    }
}

// Counts a place that was free and is open now, or was open and is free.
fn change(marks: &mut [u32], desk: usize, is: bool)
    requires { desk < desks_most }
    ensures { marks.new ≡ recounted desk (not is) is marks.old }
{
    let opens = octets::word(marks, OPENS_AT + desk);
    let common = octets::word(marks, COMMON_AT);
    octets::put_word(marks, OPENS_AT + desk, step(is, opens));
    octets::put_word(marks, COMMON_AT, common_step(is, opens, common));
}

// Counts the place of a call, which was open or not and is now or not.
pub fn count(marks: &mut [u32], desk: usize, was: bool, is: bool)
    requires { desk < desks_most }
    ensures { marks.new ≡ recounted desk was is marks.old }
{
    if was != is {
        change(marks, desk, is);
    }
}
