// Set-up: what n desks need is made fresh. For 0 desks nothing is written.
#![tactic(auto)]

ghost use Rattle.std.specs.Prelude.{◌≡◌, ◌≤◌, replicate};
ghost use Rattle.std.proofs.lemmas.List.Edits.{sets};
ghost use Rattle.paper.specs.Limits.{desks_most, head_size, places, rows_need, stores_need};
ghost use Rattle.memory.specs.Relay.{head, own_marks};
ghost use Rattle.fresh.specs.Fresh.{fitting, started_of, made_marks};

use gate::Room;
use paper::Refusal;
use paper::limits::{
    DESKS_AT, FINISHED_MOST, HEAD_SIZE, IN_BAND, MARKS_EACH, PLACES_EACH, STORE_SIZE,
};

// Whether n is proper and all that n desks need is there.
pub fn fit(n: usize, room: Room) -> Result<(), Refusal>
    ensures { result ≡ started_of (fitting n room.places room.rows room.marks room.stores) }
{
    if gate::is_improper(n) || gate::is_lacking(n, room) {
        return Err(Refusal::Desk);
    }
    Ok(())
}

// How many places n desks have.
pub fn places_of(n: usize) -> usize
    requires { n ≤ desks_most }
    ensures { result ≡ places n }
{
    PLACES_EACH * n
}

// Fills the first k elements, or as many as there are.
fn fill_front<T: Copy>(s: &mut [T], k: usize, value: T)
    ensures { s.new ≡ sets s.old 0 (replicate k value) }
{
    let n = s.len().min(k);
    for x in &mut s[..n] {
        *x = value;
    }
}

fn put_head(marks: &mut [u32], n: usize)
    requires { n ≤ desks_most }
    ensures { marks.new ≡ sets marks.old 0 (head n) }
{
    fill_front(marks, HEAD_SIZE, 0);
    octets::put_word(marks, DESKS_AT, n as u32);
}

fn put_own(marks: &mut [u32], n: usize)
    requires { n ≤ desks_most }
    ensures { marks.new ≡ sets marks.old head_size (own_marks n) }
{
    for i in 0..n {
        octets::put_word(marks, HEAD_SIZE + MARKS_EACH * i, 0);
        octets::put_word(marks, HEAD_SIZE + MARKS_EACH * i + 1, IN_BAND as u32);
    }
}

fn fresh_marks(marks: &mut [u32], n: usize)
    requires { n ≤ desks_most }
    ensures { marks.new ≡ made_marks n marks.old }
{
    if n > 0 {
        put_head(marks, n);
        put_own(marks, n);
    }
}

pub fn make_fresh(rows: &mut [u32], marks: &mut [u32], stores: &mut [u8], n: usize)
    requires { n ≤ desks_most }
    ensures { (rows.new ≡ sets rows.old 0 (replicate (rows_need n) 0))
        × (marks.new ≡ made_marks n marks.old)
        × (stores.new ≡ sets stores.old 0 (replicate (stores_need n) 0)) }
{
    fill_front(rows, FINISHED_MOST * n, 0);
    fresh_marks(marks, n);
    fill_front(stores, STORE_SIZE * n, 0);
}
