// A relay with its memory for eight desks and an output in one value, for programs, over `relay`.
#![tactic(auto)]

ghost use Rattle.std.specs.Prelude.{◌≡◌, replicate};
ghost use Rattle.paper.specs.Limits.{sample_most};
ghost use Rattle.memory.specs.Relay.{set_up, received_at, given_up_at};
ghost use Rattle.hall.specs.Hall.{tables_of, lent, heard, freed};

use paper::limits::{MARKS_MOST, PLACES_MOST, ROWS_MOST, SAMPLE_MOST, STORES_MOST};
use paper::{Answer, Name, Refusal, Sender};
use sample::Place;

#[derive(Clone, Copy)]
pub struct Hall {
    pub places: [Place; PLACES_MOST],
    pub rows: [u32; ROWS_MOST],
    pub marks: [u32; MARKS_MOST],
    pub stores: [u8; STORES_MOST],
    pub out: [u8; SAMPLE_MOST],
}

// The memory after a call, and what the call answered.
#[derive(Clone, Copy)]
pub struct Told<A> {
    pub hall: Hall,
    pub answer: A,
}

// A relay for n desks, set up in memory that holds something else. Nine is no number of desks: where set-up is refused, so is every call.
pub fn set_up(n: usize) -> Hall
    ensures { (tables_of result ≡ (set_up n lent).tables) × (result.out ≡ replicate sample_most 0) }
{
    let mut hall = Hall {
        places: [bare::closed(); PLACES_MOST],
        rows: [7u32; ROWS_MOST],
        marks: [9u32; MARKS_MOST],
        stores: [7u8; STORES_MOST],
        out: [0u8; SAMPLE_MOST],
    };
    let _ = relay::set_up(
        n,
        &mut hall.places,
        &mut hall.rows,
        &mut hall.marks,
        &mut hall.stores,
    );
    hall
}

// One call of a desk.
pub fn receive(h: Hall, who: Sender, rest: &[u8]) -> Told<Answer>
    ensures { heard result ≡ received_at (tables_of h) who rest.now h.out }
{
    let mut hall = h;
    let answer = relay::receive(
        &mut hall.places,
        &mut hall.rows,
        &mut hall.marks,
        &mut hall.stores,
        who,
        rest,
        &mut hall.out,
    );
    Told { hall, answer }
}

// A desk gives its sample of a time up.
pub fn give_up(h: Hall, who: Name) -> Told<Result<(), Refusal>>
    ensures { (freed result ≡ given_up_at (tables_of h) who) × (result.hall.out ≡ h.out) }
{
    let mut hall = h;
    let answer = relay::give_up(&mut hall.places, &mut hall.rows, &mut hall.marks, who);
    Told { hall, answer }
}
