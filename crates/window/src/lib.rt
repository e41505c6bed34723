// A desk's window of in-band values: what lies in it, what is held, where it moves.
#![tactic(auto)]

ghost use Rattle.std.specs.Prelude.{◌≡◌};
ghost use Rattle.style.specs.Store.{minus, in_window, moved, slot, carries, held, in_store, stays, repeated};

use paper::limits::{IN_BAND, WINDOW};

fn minus_of(a: usize, b: usize) -> usize
    ensures { result ≡ minus a b }
{
    (a % IN_BAND + (IN_BAND - b % IN_BAND)) % IN_BAND
}

fn is_within(newest: usize, v: usize) -> bool
    ensures { result ≡ in_window newest v }
{
    newest < IN_BAND && v < IN_BAND && minus_of(newest, v) < WINDOW
}

// The newest value once sidx is noted.
pub fn newest_of(newest: usize, sidx: usize) -> usize
    ensures { result ≡ moved newest sidx }
{
    if newest < IN_BAND && !(1..=WINDOW).contains(&minus_of(sidx, newest)) {
        newest
    } else {
        sidx
    }
}

fn does_carry(r: &[u8], v: usize) -> bool
    ensures { result ≡ carries r.now v }
{
    octets::byte(r, 0) == v && 0 < octets::number::<2>(r, 2)
}

// v is in the window of `newest` and in that of `new`.
pub fn does_stay(newest: usize, new: usize, v: usize) -> bool
    ensures { result ≡ stays newest new v }
{
    is_within(newest, v) && is_within(new, v)
}

// A desk's store, and its newest value: IN_BAND or more where there is none, as the desk's mark, a number that C lends, has it.
#[derive(Clone, Copy)]
pub struct Window<'a> {
    pub store: &'a [u8],
    pub newest: usize,
}

impl<'a> Window<'a> {
    fn slot(&self, v: usize) -> &'a [u8]
        ensures { result.now ≡ slot self.now.store.now v }
    {
        records::record_at(self.store, v % WINDOW)
    }

    // v lies in the window, and its slot has its record.
    pub fn is_held(&self, v: usize) -> bool
        ensures { result ≡ held self.now.store.now self.now.newest v }
    {
        is_within(self.newest, v) && does_carry(self.slot(v), v)
    }

    // v is held with these very bytes.
    pub fn is_repeated(&self, v: usize, d: &[u8]) -> bool
        ensures { result ≡ repeated self.now.store.now self.now.newest v d.now }
    {
        self.is_held(v) && records::description_of(self.slot(v)) == d
    }

    // The description that is held of v, and an empty one where none is: so `in_store` says it, and so C reads a lookup.
    pub fn description_of(&self, v: usize) -> &'a [u8]
        ensures { result.now ≡ in_store self.now.store.now self.now.newest v }
    {
        if self.is_held(v) {
            records::description_of(self.slot(v))
        } else {
            &self.store[..0]
        }
    }
}
