// The finder: the character at any place of any bytes. u is 0 for UTF-8, and anything else for UTF-16 big-endian.
#![tactic(auto)]

ghost use Rattle.std.specs.Prelude.{◌≡◌, drop, unwrap_or};
ghost use Rattle.text.specs.Chart.{unit_at, paired};
ghost use Rattle.text.specs.Found.{found};
ghost use Rattle.text.specs.Unicode.{character};

use text::Range;

// The length of the well-formed character at a place, where there is one. It is put into each caller, and what is called is told by a
// number, since an Option that is handed over by a call takes longer.
#[inline(always)]
pub fn character(u: usize, s: &[u8], at: usize) -> Option<usize>
    ensures { result ≡ found (character u (drop at s.now)) }
{
    let k = length(u, s, at);
    if k > 0 { Some(k) } else { None }
}

// The same as a number, 0 for none.
fn length(u: usize, s: &[u8], at: usize) -> usize
    ensures { result ≡ character u (drop at s.now) }
{
    let rest = octets::cut(s, at, s.len());
    if u == 0 {
        chart::eight(rest).unwrap_or(0)
    } else {
        sixteen(rest).unwrap_or(0)
    }
}

// A UTF-16 character in front: a lone unit, or one of D800 to DBFF followed by one of DC00 to DFFF.
#[tactic(auto, using(laws::specs::Rows::rows), unfolding(text::specs::Chart::paired, text::specs::Chart::within))]
fn sixteen(s: &[u8]) -> Option<usize>
    ensures { result ≡ found (paired s.now) }
{
    let first = unit(s, 0)?;
    if chart::within(Range(0x0000, 0xD7FF), first) || chart::within(Range(0xE000, 0xFFFF), first) {
        return Some(2);
    }
    let second = unit(s, 2)?;
    if chart::within(Range(0xD800, 0xDBFF), first) && chart::within(Range(0xDC00, 0xDFFF), second) {
        return Some(4);
    }
    None
}

// The unit of 16 bits at a place, where two bytes stand there. 10000 is no unit.
fn unit(s: &[u8], i: usize) -> Option<usize>
    ensures { unwrap_or result 0x10000 ≡ unit_at s.now i }
{
    if s.len().saturating_sub(i) < 2 {
        return None;
    }
    Some(octets::number::<2>(s, i))
}
