// Refusals 1 and 2, asked of the numbers and of the lengths of all that is lent.
#![tactic(auto)]

ghost use Rattle.std.specs.Prelude.{◌≡◌, ◌≤◌, ◌<◌, ◌+◌, ◌*◌, length};
ghost use Rattle.std.specs.Result.{OnOk};
ghost use Rattle.paper.specs.Limits.{desks_most, finished_most, head_size, marks_each, store_size};
ghost use Rattle.memory.specs.Relay.{desks_of, improper, stranger, lacks, lacks_three};
ghost use Rattle.gate.specs.Gate.{gate_of, Holds};

use paper::Refusal;
use paper::limits::{
    DESKS_AT, DESKS_MOST, FINISHED_MOST, HEAD_SIZE, MARKS_EACH, PLACES_EACH, SAMPLE_MOST,
    STORE_SIZE,
};
use std::ops::Range;

// How much is lent to a call: of each table, how many elements.
#[derive(Clone, Copy)]
pub struct Room {
    pub places: usize,
    pub rows: usize,
    pub marks: usize,
    pub stores: usize,
}

// How many desks there are, as set-up put it down.
pub fn desks_of(marks: &[u32]) -> usize
    ensures { result ≡ desks_of marks.now }
{
    octets::word(marks, DESKS_AT) as usize
}

pub fn is_improper(n: usize) -> bool
    ensures { result ≡ improper n }
{
    !(1..=DESKS_MOST).contains(&n)
}

pub fn is_stranger(n: usize, desk: usize) -> bool
    ensures { result ≡ stranger n desk }
{
    is_improper(n) || n <= desk
}

// n ≤ desks_most stays asked: behind is_stranger and fit, whose answers hold no number, a checked `Desks` adds a None never met.
pub fn lacks_three(n: usize, places: usize, rows: usize, marks: usize) -> bool
    requires { n ≤ desks_most }
    ensures { result ≡ lacks_three n places rows marks }
{
    places < PLACES_EACH * n || rows < FINISHED_MOST * n || marks < HEAD_SIZE + MARKS_EACH * n
}

pub fn is_lacking(n: usize, room: Room) -> bool
    requires { n ≤ desks_most }
    ensures { result ≡ lacks n room.places room.rows room.marks room.stores }
{
    lacks_three(n, room.places, room.rows, room.marks) || room.stores < STORE_SIZE * n
}

// 1 and 2.
pub fn gate_of(n: usize, room: Room, desk: usize, out: &[u8]) -> Result<(), Refusal>
    ensures { result ≡ gate_of n room.places room.rows room.marks room.stores desk (length out.now) }
{
    if is_stranger(n, desk) || is_lacking(n, room) {
        return Err(Refusal::Desk);
    }
    if out.len() < SAMPLE_MOST {
        return Err(Refusal::Output);
    }
    Ok(())
}

// 1 and 2 of a call, by the number of desks that set-up put down. Behind them the desk's own things lie within what is lent.
pub fn gate_at(
    table: usize,
    rows: &[u32],
    marks: &[u32],
    stores: usize,
    desk: usize,
    out: &[u8],
) -> Result<(), Refusal>
    ensures why { result ≡ gate_of (desks_of marks.now) table (length rows.now) (length marks.now) stores desk (length out.now) }
    ensures own { OnOk result (Holds desk (length rows.now) (length marks.now) stores) }
{
    let room = Room {
        places: table,
        rows: rows.len(),
        marks: marks.len(),
        stores,
    };
    gate_of(desks_of(marks), room, desk, out)
}

// Where a desk's own things stand: its finished times, its marks and its descriptions.
pub fn row_of(desk: usize) -> Range<usize>
    requires { desk < desks_most }
    ensures { (result.start ≡ finished_most * desk) × (result.end ≡ finished_most * desk + finished_most) }
{
    let at = FINISHED_MOST * desk;
    at..at + FINISHED_MOST
}

pub fn marks_of(desk: usize) -> Range<usize>
    requires { desk < desks_most }
    ensures { (result.start ≡ head_size + marks_each * desk) × (result.end ≡ head_size + marks_each * desk + marks_each) }
{
    let at = HEAD_SIZE + MARKS_EACH * desk;
    at..at + MARKS_EACH
}

pub fn store_of(desk: usize) -> Range<usize>
    requires { desk < desks_most }
    ensures { (result.start ≡ store_size * desk) × (result.end ≡ store_size * desk + store_size) }
{
    let at = STORE_SIZE * desk;
    at..at + STORE_SIZE
}
