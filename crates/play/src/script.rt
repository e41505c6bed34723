// A script: a line a call, its words with blanks between them, numbers in decimal, bytes in hexadecimal. A line whose first word is `#`
// is a remark.
ghost use Rattle.std.specs.Prelude.{◌<◌};

use paper::Time;

// The calls of a script.
#[derive(Clone, Copy, Debug, PartialEq, Eq)]
pub(crate) enum Call {
    Text,
    Rest,
    HeadWhole,
    HeadPart,
    HeadDescription,
    HeadSkipped,
    Sample,
    Enough,
    Short,
    Description,
    Modifiers,
    Mark,
    MarkThree,
    SetUp,
    Receive,
    Send,
    GiveUp,
    Look,
    Book,
}

// The call that a word names.
impl TryFrom<&[u8]> for Call {
    type Error = ();

    fn try_from(name: &[u8]) -> Result<Call, ()> {
        let call = match name {
            b"text" => Call::Text,
            b"rest" => Call::Rest,
            b"head-whole" => Call::HeadWhole,
            b"head-part" => Call::HeadPart,
            b"head-description" => Call::HeadDescription,
            b"head-skipped" => Call::HeadSkipped,
            b"sample" => Call::Sample,
            b"enough" => Call::Enough,
            b"short" => Call::Short,
            b"description" => Call::Description,
            b"modifiers" => Call::Modifiers,
            b"mark" => Call::Mark,
            b"mark-three" => Call::MarkThree,
            b"set-up" => Call::SetUp,
            b"receive" => Call::Receive,
            b"send" => Call::Send,
            b"give-up" => Call::GiveUp,
            b"look" => Call::Look,
            b"book" => Call::Book,
            _ => return Err(()),
        };
        Ok(call)
    }
}

pub(crate) fn is_remark(line: &[u8]) -> bool {
    word(line, 0) == b"#".as_slice()
}

// Word k of a line, from 0; none past the last.
pub(crate) fn word(line: &[u8], k: usize) -> &[u8] {
    line.split(|byte| *byte == b' ')
        .filter(|word| !word.is_empty())
        .nth(k)
        .unwrap_or(&[])
}

// A number; of more than nineteen digits the last ones, and the largest there is for `most`.
fn decimal(w: &[u8]) -> usize {
    if w == b"most".as_slice() {
        return usize::MAX;
    }
    let mut n = 0;
    for digit in w {
        n = n % 1000000000000000000 * 10 + digit.saturating_sub(b'0') as usize;
    }
    n
}

// Word k as a number.
pub(crate) fn number(s: &[u8], k: usize) -> usize {
    decimal(word(s, k))
}

// Word k as a time.
pub(crate) fn time(s: &[u8], k: usize) -> u32 {
    (number(s, k) % 4294967296) as u32
}

// Word k as a running time; `?` is an unknown one.
pub(crate) fn running(s: &[u8], k: usize) -> Time {
    (word(s, k) != b"?".as_slice()).then_some(time(s, k))
}

// Any byte is read as a digit, so that reading a script asks nothing.
fn hex_digit(c: u8) -> u8
    ensures bounded { result < 16 }
{
    if c < b'a' {
        return c.saturating_sub(b'0') % 16;
    }
    (c - b'a' + 10) % 16
}

// The byte of the two digits at the front of a word.
fn byte_of(w: &[u8]) -> u8 {
    let high = w.first().copied().unwrap_or(0);
    let low = w.get(1).copied().unwrap_or(0);
    hex_digit(high) * 16 + hex_digit(low)
}

// A byte so often as it says, where there is room; answers the place behind the last.
fn put_again(out: &mut [u8], at: usize, b: u8, many: usize) -> usize {
    let from = at.min(out.len());
    let end = from + many.min(out.len() - from);
    out[from..end].fill(b);
    end
}

// A byte for each two digits.
fn put_digits(out: &mut [u8], at: usize, w: &[u8]) -> usize {
    let mut next = at;
    for digits in w.chunks_exact(2) {
        next = put_again(out, next, byte_of(digits), 1);
    }
    next
}

// The bytes of a word, from a place on: two digits each; `41*9` is 41 nine times. Answers the place behind them.
fn put_word(out: &mut [u8], at: usize, w: &[u8]) -> usize {
    match w.iter().position(|c| *c == b'*') {
        Some(star) => put_again(out, at, byte_of(w), decimal(octets::cut(w, star, w.len()))),
        None => put_digits(out, at, w),
    }
}

// The bytes of the words from word k on, at the front of the output.
pub(crate) fn bytes<'a>(line: &[u8], k: usize, out: &'a mut [u8]) -> &'a [u8] {
    let mut n = 0;
    for word in line
        .split(|byte| *byte == b' ')
        .filter(|word| !word.is_empty())
        .skip(k)
    {
        n = put_word(out, n, word);
    }
    octets::cut(out, 0, n)
}
