// The relay's answer to a unit as numbers, one after the other in a lent row.
#![tactic(auto)]

ghost use Rattle.std.specs.Prelude.{◌≡◌};
ghost use Rattle.std.proofs.lemmas.List.Edits.{sets};
ghost use Rattle.paper.specs.Words.{facts_of, values_of};
ghost use Rattle.answers.specs.Answers.{time_row, answer_row};

use paper::{Answer, Facts, Outcome, Time};

// The numbers that hold the row of any answer.
pub const ROW_MOST: usize = 10;

fn put_facts(row: &mut [u64], f: Facts)
    ensures { row.new ≡ sets row.old 4 (facts_of f) }
{
    numbers::put_all(
        row,
        4,
        &[f.time as usize, f.u, f.sidx, f.sdur, f.string, f.sample],
    );
}

fn put_values(row: &mut [u64], outcome: Outcome)
    ensures { row.new ≡ sets row.old 4 (values_of outcome) }
{
    match outcome {
        Outcome::Whole(f) | Outcome::Joined(f) => put_facts(row, f),
        Outcome::Kept(n) | Outcome::Skipped(n) => numbers::put_at(row, 4, n),
        Outcome::Refused(r) => numbers::put_at(row, 4, usize::from(r)),
        Outcome::End | Outcome::Repeat | Outcome::Described => {}
    }
}

fn put_time(row: &mut [u64], t: Time)
    ensures { row.new ≡ sets row.old 1 (time_row t) }
{
    match t {
        Some(time) => numbers::put_all(row, 1, &[1, time as usize]),
        None => numbers::put_all(row, 1, &[0, 0]),
    }
}

// Answers the bytes used.
pub fn put_answer(row: &mut [u64], a: Answer) -> usize
    ensures { (result ≡ a.used) × (row.new ≡ sets row.old 0 (answer_row a)) }
{
    numbers::put_at(row, 0, a.used);
    put_time(row, a.next);
    numbers::put_at(row, 3, a.outcome.kind());
    put_values(row, a.outcome);
    a.used
}
