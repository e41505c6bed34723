// The listing of one payload: a line a unit.
#![tactic(auto)]

ghost use Rattle.std.specs.Prelude.{◌≡◌, length};
ghost use Rattle.memory.specs.Relay.{tables};
ghost use Rattle.good.specs.Good.{Good};
ghost use Rattle.lines.specs.Typed.{page, typed};
ghost use Rattle.list.specs.Listed.{lines_from, listed};

use paper::limits::{FINISHED_MOST, HEAD_SIZE, MARKS_EACH, PLACES_MOST, SAMPLE_MOST, STORE_SIZE};
use paper::{Sender, Time};
use sample::Place;

const PAYLOAD_MOST: usize = 4096;

const MARKS_FOR_ONE: usize = HEAD_SIZE + MARKS_EACH;

// The lines of the units, one after the other, and `end`.
fn list_units(
    fresh: [Place; PLACES_MOST],
    rows: &mut [u32],
    marks: &mut [u32],
    stores: &mut [u8],
    input: &[u8],
    text: &mut [u8],
) -> usize
    requires { Good 1 (tables fresh rows.old marks.old stores.old) }
    ensures { page text.new result
        ≡ typed text.old 0
        (lines_from (length input.now) (tables fresh rows.old marks.old stores.old)
        (Some 0) 0 input.now) }
{
    let mut places = fresh;
    let mut time = Some(0);
    let mut at = 0;
    let mut next = 0;
    while at < input.len() {
        let mut out = [0u8; SAMPLE_MOST];
        let who = Sender { desk: 0, time };
        let called = held::receive(places, rows, marks, stores, who, &input[at..], &mut out);
        let answer = called.answer;
        next = lines::put_line(text, next, at, time, answer);
        places = called.places;
        time = answer.next;
        at += answer.used;
    }
    lines::put_text(text, next, b"end\n")
}

// A line for each unit of the payload, and `end`; for a longer input `too long`.
pub fn list(input: &[u8], text: &mut [u8]) -> usize
    ensures { page text.new result ≡ typed text.old 0 (listed input.now) }
{
    if PAYLOAD_MOST < input.len() {
        return lines::put_text(text, 0, b"too long\n");
    }
    let mut rows = [0u32; FINISHED_MOST];
    let mut marks = [0u32; MARKS_FOR_ONE];
    let mut stores = [0u8; STORE_SIZE];
    let begun = held::set_up(
        1,
        [bare::closed(); PLACES_MOST],
        &mut rows,
        &mut marks,
        &mut stores,
    );
    let places = begun.places;
    list_units(places, &mut rows, &mut marks, &mut stores, input, text)
}
