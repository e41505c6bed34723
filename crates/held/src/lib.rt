// The relay over a table by value, for callers that keep it in a local: the three calls that lend the table, and `list` stands on them.
#![tactic(auto)]

ghost use Rattle.memory.specs.Lent.{SetsUp, Receives, GivesUp};
ghost use Rattle.held.specs.Held.{kept, kept_three};

use paper::limits::PLACES_MOST;
use paper::{Answer, Name, Refusal, Sender};
use sample::Place;

// A table after a call, and what the call answered.
#[derive(Clone, Copy)]
pub struct With<A> {
    pub places: [Place; PLACES_MOST],
    pub answer: A,
}

pub fn set_up(
    n: usize,
    places: [Place; PLACES_MOST],
    rows: &mut [u32],
    marks: &mut [u32],
    stores: &mut [u8],
) -> With<Result<(), Refusal>>
    ensures { SetsUp n (kept places result.places rows marks stores) result.answer }
{
    let mut t = places;
    let answer = relay::set_up(n, &mut t, rows, marks, stores);
    With { places: t, answer }
}

pub fn receive(
    places: [Place; PLACES_MOST],
    rows: &mut [u32],
    marks: &mut [u32],
    stores: &mut [u8],
    who: Sender,
    rest: &[u8],
    out: &mut [u8],
) -> With<Answer>
    ensures { Receives (kept places result.places rows marks stores) who rest out result.answer }
{
    let mut t = places;
    let answer = relay::receive(&mut t, rows, marks, stores, who, rest, out);
    With { places: t, answer }
}

pub fn give_up(
    places: [Place; PLACES_MOST],
    rows: &mut [u32],
    marks: &mut [u32],
    who: Name,
) -> With<Result<(), Refusal>>
    ensures { GivesUp (kept_three places result.places rows marks) who result.answer }
{
    let mut t = places;
    let answer = relay::give_up(&mut t, rows, marks, who);
    With { places: t, answer }
}
