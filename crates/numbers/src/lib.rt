// Answers as numbers, one after the other in a lent row, and from numbers the name of a sample and who sends a unit. The answer to a unit
// is in `answers`.
#![tactic(auto)]

ghost use Rattle.std.specs.Prelude.{◌≡◌, [], ◌∷◌, set};
ghost use Rattle.std.proofs.lemmas.List.Edits.{sets};
ghost use Rattle.desk.specs.Desk.{given_up_number};
ghost use Rattle.memory.specs.Relay.{started_number};
ghost use Rattle.numbers.specs.Numbers.{checked_row, written_row, stepped_row, name_of, time_of, sent_by};

use paper::{Name, Refusal, Sender, Time};
use style::BadRecord;
use writer::Payload;

// Stores a number in a row; past the end, nothing. By an index: the proof with `get_mut` did not close, since it says nothing of the rest.
pub fn put_at(row: &mut [u64], i: usize, v: usize)
    ensures { row.new ≡ set row.old i v }
{
    if i < row.len() {
        row[i] = v as u64;
    }
}

// Stores numbers one behind the other from a place on; past the end, nothing.
pub fn put_all(row: &mut [u64], at: usize, values: &[usize])
    ensures { row.new ≡ sets row.old at values.now }
{
    for (k, v) in values.iter().enumerate() {
        put_at(row, at.saturating_add(k), *v);
    }
}

pub fn put_checked(row: &mut [u64], c: Result<usize, BadRecord>)
    ensures { row.new ≡ sets row.old 0 (checked_row c) }
{
    match c {
        Ok(n) => put_all(row, 0, &[0, n]),
        Err(b) => put_all(row, 0, &[usize::from(b.why), b.at]),
    }
}

pub fn put_written(row: &mut [u64], w: Result<Payload, Refusal>)
    ensures { row.new ≡ sets row.old 0 (written_row w) }
{
    match w {
        Ok(Payload { len, count }) => put_all(row, 0, &[0, len, count]),
        Err(r) => put_all(row, 0, &[usize::from(r)]),
    }
}

pub fn put_stepped(row: &mut [u64], next: usize, f: Result<Option<usize>, Refusal>)
    ensures { row.new ≡ sets row.old 0 (stepped_row next f) }
{
    match f {
        Ok(None) => put_all(row, 0, &[next, 0]),
        Ok(Some(t)) => put_all(row, 0, &[next, 1, t]),
        Err(r) => put_all(row, 0, &[next, 2, usize::from(r)]),
    }
}

pub fn name_of(desk: usize, time: u32) -> Name
    ensures { result ≡ name_of desk time }
{
    Name { desk, time }
}

// The C interface hands the time over as two numbers, since C has no Option.
fn time_of(known: usize, time: u32) -> Time
    ensures { result ≡ time_of known time }
{
    (known != 0).then_some(time)
}

pub fn sent_by(desk: usize, known: usize, time: u32) -> Sender
    ensures { result ≡ sent_by desk known time }
{
    Sender {
        desk,
        time: time_of(known, time),
    }
}

// What a set-up or a give-up answers as a number: 0, or the refusal.
pub fn number_of_result(r: Result<(), Refusal>) -> usize
    ensures started { result ≡ started_number r }
    ensures given_up { result ≡ given_up_number r }
{
    match r {
        Ok(()) => 0,
        Err(why) => usize::from(why),
    }
}
