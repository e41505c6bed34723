// Numbers and answers as text, laid into a lent output: what does not fit is left out, and the answer is the place behind the text.
#![tactic(auto)]

ghost use Rattle.std.specs.Prelude.{◌≡◌, [], ◌∷◌, ◌++◌, ◌+◌, ◌<◌};
ghost use Rattle.lines.specs.Digits.{digit_zero, digits};
ghost use Rattle.lines.specs.Line.{outcome_text, time_text, line_of};
ghost use Rattle.lines.specs.Typed.{page, typed};
ghost use Rattle.lines.specs.Words.{word_time};

use paper::{Answer, Outcome, Time};

pub fn put_text(out: &mut [u8], at: usize, text: &[u8]) -> usize
    ensures { page out.new result ≡ typed out.old at text.now }
{
    octets::put(out, at, text);
    let from = at.min(out.len());
    from + text.len().min(out.len() - from)
}

fn put_digit(out: &mut [u8], at: usize, d: usize) -> usize
    requires { d < 10 }
    ensures { page out.new result ≡ typed out.old at ((digit_zero + d) ∷ []) }
{
    put_text(out, at, &[(0x30 + d) as u8])
}

pub fn put_number(out: &mut [u8], at: usize, n: usize) -> usize
    ensures { page out.new result ≡ typed out.old at (digits n) }
{
    if n < 10 {
        return put_digit(out, at, n);
    }
    let next = put_number(out, at, n / 10);
    put_digit(out, next, n % 10)
}

// A word, and a number behind it.
fn put_count(out: &mut [u8], at: usize, word: &[u8], n: usize) -> usize
    ensures { page out.new result ≡ typed out.old at (word.now ++ digits n) }
{
    let next = put_text(out, at, word);
    put_number(out, next, n)
}

#[tactic(auto, unfolding(crate::specs::Line::outcome_text))]
fn put_outcome(out: &mut [u8], at: usize, outcome: Outcome) -> usize
    ensures { page out.new result ≡ typed out.old at (outcome_text outcome) }
{
    match outcome {
        Outcome::End => put_text(out, at, b"end"),
        Outcome::Whole(f) => put_count(out, at, b"whole ", f.sample),
        Outcome::Joined(f) => put_count(out, at, b"joined ", f.sample),
        Outcome::Kept(n) => put_count(out, at, b"kept ", n),
        Outcome::Repeat => put_text(out, at, b"repeat"),
        Outcome::Described => put_text(out, at, b"described"),
        Outcome::Skipped(t) => put_count(out, at, b"skipped ", t),
        Outcome::Refused(r) => put_count(out, at, b"refused ", usize::from(r)),
    }
}

#[tactic(auto, unfolding(crate::specs::Line::time_text))]
fn put_time(out: &mut [u8], at: usize, t: Time) -> usize
    ensures { page out.new result ≡ typed out.old at (word_time ++ time_text t) }
{
    match t {
        Some(time) => put_count(out, at, b" time ", time as usize),
        None => put_text(out, at, b" time ?"),
    }
}

// The line of one unit: where it stands in the payload, the time it is read at, and what was answered.
pub fn put_line(out: &mut [u8], at: usize, place: usize, t: Time, answer: Answer) -> usize
    ensures { page out.new result ≡ typed out.old at (line_of place t answer) }
{
    let outcome = answer.outcome;
    let next = put_count(out, at, b"at ", place);
    let next = put_count(out, next, b" used ", answer.used);
    let next = put_time(out, next, t);
    let next = put_text(out, next, b" ");
    let next = put_outcome(out, next, outcome);
    put_text(out, next, b"\n")
}
