// The calls of the relay, and what the halls see of them.
use crate::{print, script};
use hall::Hall;
use paper::{Facts, Name, Outcome, Sender, Time};
use std::io;
use std::io::Print;
use writer::{Payload, Sample};

// The longest payload of the script, and its longest style book.
const PAYLOAD_MOST: usize = 1040;

const BOOK_MOST: usize = 520;

// What is told of a sample, and the output.
fn sample(rt: &impl Print, f: Facts, out: &[u8]) -> io::Result<()> {
    print::numbers(
        rt,
        &[f.time as usize, f.u, f.sidx, f.sdur, f.string, f.sample],
    )?;
    print::laid(rt, out, f.sample)
}

// What the halls are handed, if anything.
fn hand_out(rt: &impl Print, h: &Hall, outcome: Outcome) -> io::Result<()> {
    match outcome {
        Outcome::Whole(f) | Outcome::Joined(f) => sample(rt, f, &h.out),
        _ => Ok(()),
    }
}

// A running time; `?` where it is unknown.
fn print_time(rt: &impl Print, t: Time) -> io::Result<()> {
    match t {
        Some(time) => print::number(rt, time as usize),
        None => print::text(rt, b" ?"),
    }
}

// `set-up N`: a fresh relay.
pub(crate) fn set_up(line: &[u8]) -> Hall {
    hall::set_up(script::number(line, 1))
}

// The next running time, what the listing says of the payload's first unit, and what is handed out.
fn take(rt: &impl Print, h: &mut Hall, desk: usize, time: Time, rest: &[u8]) -> io::Result<()> {
    let r = hall::receive(*h, Sender { desk, time }, rest);
    *h = r.hall;
    let answer = r.answer;
    let mut line = [0u8; 64];
    let end = lines::put_line(&mut line, 0, 0, time, answer);
    print_time(rt, answer.next)?;
    print::blank(rt)?;
    print::text(rt, octets::cut(&line, 0, end.saturating_sub(1)))?;
    hand_out(rt, h, answer.outcome)
}

// `receive DESK TIME BYTES`; TIME is `?` where it is unknown.
pub(crate) fn receive(rt: &impl Print, h: &mut Hall, line: &[u8]) -> io::Result<()> {
    let mut rest = [0u8; PAYLOAD_MOST];
    take(
        rt,
        h,
        script::number(line, 1),
        script::running(line, 2),
        script::bytes(line, 3, &mut rest),
    )
}

// Payload k of a caption, cut for the size limit m, is received.
fn cut_and_take(rt: &impl Print, h: &mut Hall, line: &[u8], text: &[u8]) -> io::Result<()> {
    let mut out = [0u8; PAYLOAD_MOST];
    let m = script::number(line, 3);
    let k = script::number(line, 4);
    let c = Sample {
        u: 0,
        sidx: 128,
        sdur: 50,
        string: text,
        modifiers: &[],
    };
    match writes::write_sample(&c, m, k, &mut out) {
        Ok(Payload { len, .. }) => take(
            rt,
            h,
            script::number(line, 1),
            script::running(line, 2),
            octets::cut(&out, 0, len),
        ),
        Err(_) => Ok(()),
    }
}

// `send DESK TIME M K BYTES`.
pub(crate) fn send(rt: &impl Print, h: &mut Hall, line: &[u8]) -> io::Result<()> {
    let mut text = [0u8; PAYLOAD_MOST];
    cut_and_take(rt, h, line, script::bytes(line, 5, &mut text))
}

// `give-up DESK TIME`: 0, or the refusal.
pub(crate) fn give_up(rt: &impl Print, h: &mut Hall, line: &[u8]) -> io::Result<()> {
    let desk = script::number(line, 1);
    let time = script::time(line, 2);
    let r = hall::give_up(*h, Name { desk, time });
    *h = r.hall;
    match r.answer {
        Ok(()) => print::number(rt, 0),
        Err(why) => print::refused(rt, why),
    }
}

// `look DESK INDEX BOOK`: how long the description is that an index shows, and its front.
pub(crate) fn look(rt: &impl Print, h: &Hall, line: &[u8]) -> io::Result<()> {
    let mut book = [0u8; BOOK_MOST];
    let desk = script::number(line, 1);
    let index = script::number(line, 2);
    let d = relay::lookup(
        &h.marks,
        &h.stores,
        desk,
        index,
        script::bytes(line, 3, &mut book),
    );
    print::number(rt, d.len())?;
    print::bytes(rt, octets::cut(d, 0, 20))
}

// `book BYTES`: how many records a good style book has; or the refusal, and the first bad one's number.
pub(crate) fn book(rt: &impl Print, line: &[u8]) -> io::Result<()> {
    let mut book = [0u8; BOOK_MOST];
    match book::check(script::bytes(line, 1, &mut book)) {
        Ok(many) => print::number(rt, many),
        Err(bad) => {
            print::refused(rt, bad.why)?;
            print::number(rt, bad.at)
        }
    }
}
