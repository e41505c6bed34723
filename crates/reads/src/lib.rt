// Reading the unit at the front of a rest: the order of answers, with the limits of refusal 4 and, behind them, 17.
#![tactic(auto)]

ghost use Rattle.std.specs.Prelude.{◌≡◌};
ghost use Rattle.unit.specs.Layout.{least, bad_whole, bad_part, bad_description, bad_fields, broken, judged, text_judged, read_of};

use paper::Refusal;
use paper::limits::{IN_BAND, RESERVED};
use unit::{Description, Part, Reading, Unit, Whole};

#[tactic(auto, using(laws::specs::Rows::rows), unfolding(unit::specs::Layout::least))]
fn least_len(kind: usize) -> usize
    ensures { result ≡ least kind }
{
    match kind {
        1 => 8,
        2 => 10,
        3 | 4 => 7,
        5 => 4,
        _ => 0,
    }
}

#[tactic(auto, using(laws::specs::Rows::rows), unfolding(unit::specs::Layout::bad_whole))]
fn bad_whole(w: Whole) -> bool
    ensures { result ≡ bad_whole w }
{
    w.len < w.tlen || w.sidx == RESERVED
}

#[tactic(auto, using(laws::specs::Rows::rows), unfolding(unit::specs::Layout::bad_part))]
fn bad_part(w: Part) -> bool
    ensures { result ≡ bad_part w }
{
    w.total == 0 || w.this == 0 || w.total < w.this || w.sidx == RESERVED
}

#[tactic(auto, using(laws::specs::Rows::rows), unfolding(unit::specs::Layout::bad_description))]
fn bad_description(w: Description) -> bool
    ensures { result ≡ bad_description w }
{
    IN_BAND <= w.sidx
}

fn bad_fields(x: Unit) -> bool
    ensures { result ≡ bad_fields x }
{
    match x {
        Unit::Whole(w) => bad_whole(w),
        Unit::Part(w) => bad_part(w),
        Unit::Description(w) => bad_description(w),
        Unit::End | Unit::Skipped(_) | Unit::Refused(_) => false,
    }
}

#[tactic(auto, using(laws::specs::Rows::rows), unfolding(unit::specs::Layout::broken))]
fn is_broken(rest: &[u8]) -> bool
    ensures { result ≡ broken rest.now }
{
    let n = rest.len();
    let len = octets::number::<2>(rest, 1);
    n < 3 || len < 2 || n < 1 + len
}

#[tactic(auto, using(laws::specs::Rows::rows), unfolding(unit::specs::Layout::judged))]
fn judge(kind: usize, len: usize, x: Unit) -> Unit
    ensures { result ≡ judged kind len x }
{
    if len < least_len(kind) || bad_fields(x) {
        return Unit::Refused(Refusal::Fields);
    }
    x
}

#[tactic(auto, using(laws::specs::Rows::rows), unfolding(unit::specs::Layout::text_judged))]
fn judge_text(rest: &[u8], x: Unit) -> Unit
    ensures { result ≡ text_judged rest.now x }
{
    if texts::is_ill(rest, x) {
        return Unit::Refused(Refusal::IllFormed);
    }
    x
}

// Reads the unit at the front of the rest.
pub fn read(rest: &[u8]) -> Reading
    ensures { result ≡ read_of rest.now }
{
    let n = rest.len();
    if n == 0 {
        return Reading {
            used: 0,
            unit: Unit::End,
        };
    }
    if is_broken(rest) {
        return Reading {
            used: n,
            unit: Unit::Refused(Refusal::Frame),
        };
    }
    let head = octets::byte(rest, 0);
    let kind = head % 8;
    let len = octets::number::<2>(rest, 1);
    let x = judge(kind, len, fields::read_fields(rest, head / 128, kind, len));
    Reading {
        used: 1 + len,
        unit: judge_text(rest, x),
    }
}
