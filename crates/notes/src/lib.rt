// A description unit, TYPE 5: what it changes in a desk's store, and what is answered.
#![tactic(auto)]

ghost use Rattle.std.specs.Prelude.{◌≡◌, false, MatchOption};
ghost use Rattle.style.specs.Store.{improper, left, noted, noted_as};
ghost use Rattle.notes.specs.Notes.{New};

use paper::limits::{DESCRIPTION_MOST, IN_BAND};
use paper::{Outcome, Refusal};
use style::Noted;
use window::Window;

fn is_improper(sidx: usize, d: &[u8]) -> bool
    ensures { result ≡ improper sidx d.now }
{
    IN_BAND <= sidx || d.is_empty()
}

// What is answered to a unit that changes nothing: a refusal, or that it is a repeat. None where it is new.
fn unchanged(w: &Window, sidx: usize, d: &[u8]) -> Option<Outcome>
    ensures { MatchOption result (New w.now.store.now w.now.newest sidx d.now)
        (λ o. left (noted_as w.now.newest o) w.now.store.now ≡ noted w.now.store.now w.now.newest sidx d.now) }
{
    if is_improper(sidx, d) {
        return Some(Outcome::Refused(Refusal::Fields));
    }
    if DESCRIPTION_MOST < d.len() {
        return Some(Outcome::Refused(Refusal::Size));
    }
    if w.is_repeated(sidx, d) {
        return Some(Outcome::Repeat);
    }
    if w.is_held(sidx) {
        return Some(Outcome::Refused(Refusal::Conflict));
    }
    None
}

// Notes a description unit in a desk's store.
pub fn note(store: &mut [u8], newest: usize, sidx: usize, d: &[u8]) -> Noted
    ensures { left result store.new ≡ noted store.old newest sidx d.now }
{
    if let Some(outcome) = unchanged(&Window { store, newest }, sidx, d) {
        return Noted { newest, outcome };
    }
    let new = window::newest_of(newest, sidx);
    slots::forget(store, newest, new);
    slots::put_description(store, sidx, d);
    Noted {
        newest: new,
        outcome: Outcome::Described,
    }
}
