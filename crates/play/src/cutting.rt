// The writer: payloads of samples of both encodings around each edge, and descriptions. Strings and modifiers repeat thirty bytes.
use crate::{print, script};
use paper::Refusal;
use std::io;
use std::io::Print;
use writer::{Payload, Sample};

const LETTERS: [u8; 30] = *b"abcdefghijklmnopqrstuvwxyzabcd";
// one, two, three and four bytes a character
const MIXED: [u8; 30] =
    *b"a\xc3\xa9\xe2\x82\xac\xf0\x9f\x98\x80a\xc3\xa9\xe2\x82\xac\xf0\x9f\x98\x80a\xc3\xa9\xe2\x82\xac\xf0\x9f\x98\x80";
// two and four bytes a character
const WIDE: [u8; 30] =
    *b"\x00a\xd8\x3d\xde\x00\x00a\xd8\x3d\xde\x00\x00a\xd8\x3d\xde\x00\x00a\xd8\x3d\xde\x00\x00a\xd8\x3d\xde\x00";

const MODIFIERS: [u8; 30] =
    *b"\x01\x02\x03\x04\x05\x06\x07\x08\x09\x0a\x0b\x0c\x0d\x0e\x0f\x10\x11\x12\x13\x14\x15\x16\x17\x18\x19\x1a\x1b\x1c\x1d\x1e";

fn fill(s: &mut [u8], thirty: &[u8; 30]) {
    for piece in s.chunks_mut(thirty.len()) {
        octets::put(piece, 0, thirty);
    }
}

// The payload's length, how many there are, and its bytes; or the refusal.
fn tell(rt: &impl Print, w: Result<Payload, Refusal>, out: &[u8]) -> io::Result<()> {
    match w {
        Err(r) => print::refused(rt, r),
        Ok(Payload { len, count }) => {
            print::numbers(rt, &[len, count])?;
            print::laid(rt, out, len)
        }
    }
}

// n bytes of `thirty` again and again as the string, `more` bytes of modifiers, payload k for the size limit m.
fn case(
    rt: &impl Print,
    u: usize,
    thirty: &[u8; 30],
    n: usize,
    more: usize,
    m: usize,
    k: usize,
) -> io::Result<()> {
    let mut string = [0u8; 1100];
    fill(&mut string, thirty);
    let mut modifiers = [0u8; 1100];
    fill(&mut modifiers, &MODIFIERS);
    let mut out = [0xaau8; 1402];
    let c = Sample {
        u,
        sidx: 128,
        sdur: 90000,
        string: octets::cut(&string, 0, n),
        modifiers: octets::cut(&modifiers, 0, more),
    };
    let w = writes::write_sample(&c, m, k, &mut out);
    tell(rt, w, &out)
}

// Eight letters that just fit the size limit: `enough SIDX SDUR` with an output of the limit, `short SIDX SDUR` with one byte less.
pub(crate) fn fields(rt: &impl Print, line: &[u8], out: &mut [u8]) -> io::Result<()> {
    let c = Sample {
        u: 0,
        sidx: script::number(line, 1),
        sdur: script::number(line, 2),
        string: b"abcdefgh",
        modifiers: b"",
    };
    let w = writes::write_sample(&c, 17, 1, out);
    tell(rt, w, out)
}

// `description SIDX N M K`.
pub(crate) fn description(rt: &impl Print, line: &[u8]) -> io::Result<()> {
    let mut d = [0u8; 300];
    fill(&mut d, &MODIFIERS);
    let mut out = [0xaau8; 1400];
    let sidx = script::number(line, 1);
    let n = script::number(line, 2);
    let m = script::number(line, 3);
    let k = script::number(line, 4);
    let w = describes::write_description(sidx, octets::cut(&d, 0, n), m, k, &mut out);
    tell(rt, w, &out)
}

// `sample U STRING N MORE M K`, with the bytes that the string repeats by name.
pub(crate) fn sample(rt: &impl Print, line: &[u8]) -> io::Result<()> {
    let thirty = match script::word(line, 2) {
        b"mixed" => &MIXED,
        b"wide" => &WIDE,
        _ => &LETTERS,
    };
    case(
        rt,
        script::number(line, 1),
        thirty,
        script::number(line, 3),
        script::number(line, 4),
        script::number(line, 5),
        script::number(line, 6),
    )
}
