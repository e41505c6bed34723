// The relay for up to eight desks over memory that the caller lends: set-up, receive, give-up and lookup. What decides is in `gate`,
// `looks`, `takes` and `yields`; here are the functions over the lent places, which look at them, lend one and hand on all else.
// The four tables are no struct: C lends set-up and receive all four, give-up three and lookup two.
#![tactic(auto)]

ghost use Rattle.std.specs.Prelude.{◌≡◌, true, false};
ghost use Rattle.unit.specs.Layout.{read_of};
ghost use Rattle.desk.specs.Desk.{is_part};
ghost use Rattle.memory.specs.Relay.{looked_up};
ghost use Rattle.memory.specs.Lent.{lent, lent_three, SetsUp, Receives, GivesUp};

use gate::Room;
use paper::{Answer, Name, Refusal, Sender};
use sample::Place;
use unit::Reading;

// Makes what n desks need fresh, or refuses and writes nothing.
pub fn set_up(
    n: usize,
    places: &mut [Place],
    rows: &mut [u32],
    marks: &mut [u32],
    stores: &mut [u8],
) -> Result<(), Refusal>
    ensures { SetsUp n (lent places rows marks stores) result }
{
    let room = Room {
        places: places.len(),
        rows: rows.len(),
        marks: marks.len(),
        stores: stores.len(),
    };
    fresh::fit(n, room)?;
    frees::clear(places, fresh::places_of(n));
    fresh::make_fresh(rows, marks, stores, n);
    Ok(())
}

// Takes a part: over the place where it is kept, if there is one.
fn join(
    places: &mut [Place],
    rows: &mut [u32],
    marks: &mut [u32],
    stores: &mut [u8],
    who: Sender,
    r: Reading,
    rest: &[u8],
    out: &mut [u8],
) -> Answer
    requires { (r ≡ read_of rest.now) × (is_part r.unit ≡ true) }
    ensures { Receives (lent places rows marks stores) who rest out result }
{
    let len = places.len();
    let m = looks::reach(marks, who, len);
    let x = asks::arrived(r);
    match looks::spot(places, m, who, x) {
        Some(i) => takes::step(
            len,
            &mut places[i],
            rows,
            marks,
            stores.len(),
            who,
            x,
            rest,
            out,
        ),
        None => takes::step_lost(len, rows, marks, stores.len(), who, x, rest, out),
    }
}

// Takes a unit that is no part: the places stay.
fn pass(
    places: &mut [Place],
    rows: &mut [u32],
    marks: &mut [u32],
    stores: &mut [u8],
    who: Sender,
    r: Reading,
    rest: &[u8],
    out: &mut [u8],
) -> Answer
    requires { (r ≡ read_of rest.now) × (is_part r.unit ≡ false) }
    ensures { Receives (lent places rows marks stores) who rest out result }
{
    let len = places.len();
    let m = looks::reach_for(marks, who, len, r);
    let is_open = counts::is_open(places, m, who);
    yields::pass_step(len, is_open, rows, marks, stores, who, r, rest, out)
}

// Takes the unit at the front of the rest, which a desk sent at the running time.
pub fn receive(
    places: &mut [Place],
    rows: &mut [u32],
    marks: &mut [u32],
    stores: &mut [u8],
    who: Sender,
    rest: &[u8],
    out: &mut [u8],
) -> Answer
    ensures { Receives (lent places rows marks stores) who rest out result }
{
    let r = reads::read(rest);
    if asks::is_part(r) {
        join(places, rows, marks, stores, who, r, rest, out)
    } else {
        pass(places, rows, marks, stores, who, r, rest, out)
    }
}

// Gives a desk's open sample up: its place is freed and its time marked finished.
pub fn give_up(
    places: &mut [Place],
    rows: &mut [u32],
    marks: &mut [u32],
    who: Name,
) -> Result<(), Refusal>
    ensures { GivesUp (lent_three places rows marks) who result }
{
    let whose = Sender::from(who);
    let len = places.len();
    let m = looks::reach(marks, whose, len);
    let at = finds::find(places, m, whose);
    yields::yield_step(len, at.is_some(), rows, marks, who)?;
    if let Some(i) = at {
        frees::free(places, m, i);
    }
    Ok(())
}

// Shows a description as a part of the book or of the desk's own store.
pub fn lookup<'a>(
    marks: &[u32],
    stores: &'a [u8],
    desk: usize,
    index: usize,
    book: &'a [u8],
) -> &'a [u8]
    ensures { result.now ≡ looked_up marks.now stores.now desk index book.now }
{
    shows::look_up(marks, stores, desk, index, book)
}
