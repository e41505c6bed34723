// The chart of well-formed UTF-8 byte sequences, and the length of a character by it.
#![tactic(auto)]

ghost use Rattle.std.specs.Prelude.{◌≡◌, drop};
ghost use Rattle.laws.specs.Rows.{◌⇒◌⁏◌, ◌<?◌};
ghost use Rattle.text.specs.Chart.{chart, within, follows, charted};
ghost use Rattle.text.specs.Found.{found};
ghost use Rattle.text.specs.Unicode.{character};

use text::{Range, Row};

// As the Unicode Standard has it (table 3-7): lead from and to, second from and to, length. Third and fourth bytes are 80 to BF. In the
// first row nothing stands behind the lead byte.
const CHART: [Row; 9] = [
    Row(Range(0x00, 0x7F), Range(0x00, 0x00), 1),
    Row(Range(0xC2, 0xDF), Range(0x80, 0xBF), 2),
    Row(Range(0xE0, 0xE0), Range(0xA0, 0xBF), 3),
    Row(Range(0xE1, 0xEC), Range(0x80, 0xBF), 3),
    Row(Range(0xED, 0xED), Range(0x80, 0x9F), 3),
    Row(Range(0xEE, 0xEF), Range(0x80, 0xBF), 3),
    Row(Range(0xF0, 0xF0), Range(0x90, 0xBF), 4),
    Row(Range(0xF1, 0xF3), Range(0x80, 0xBF), 4),
    Row(Range(0xF4, 0xF4), Range(0x80, 0x8F), 4),
];

// The table is the chart, row by row.
#[tactic(auto, unfolding(text::specs::Chart::chart))]
fn chart() -> [Row; 9]
    ensures { result ≡ chart }
{
    CHART
}

// The length of the UTF-8 character in front, by the chart, where there is one.
#[inline(always)]
pub fn eight(s: &[u8]) -> Option<usize>
    ensures { result ≡ found (character 0 s.now) }
{
    let k = length(s);
    if k > 0 { Some(k) } else { None }
}

// The same as a number, 0 for none, since an Option that is told row by row takes up to 1.5 times as long: the lead byte tells the row.
// Here are the rows of one byte and two. The rows are asked one by one, so that the compiler knows their numbers: on Greek a loop over
// CHART took five times as long, and `find` 1.6 times.
#[tactic(auto, using(text::proofs::Finder::finding), unfolding(text::specs::Chart::chart, text::specs::Chart::charted))]
fn length(s: &[u8]) -> usize
    ensures { result ≡ character 0 s.now }
{
    let rows = chart();
    let lead = octets::byte(s, 0);
    if leads(rows[0], lead) {
        return size(s, rows[0]);
    }
    if leads(rows[1], lead) {
        return size(s, rows[1]);
    }
    three(s)
}

// The rows of three bytes, and those behind them. A lead byte past the last of them asks none of them.
#[tactic(auto, using(text::proofs::Finder::finding), unfolding(text::specs::Chart::chart, text::specs::Chart::charted))]
fn three(s: &[u8]) -> usize
    ensures { result ≡ charted (drop 2 chart) s.now }
{
    let rows = chart();
    let lead = octets::byte(s, 0);
    if is_past(rows[5], lead) {
        return four(s);
    }
    if leads(rows[2], lead) {
        return size(s, rows[2]);
    }
    if leads(rows[3], lead) {
        return size(s, rows[3]);
    }
    if leads(rows[4], lead) {
        return size(s, rows[4]);
    }
    if leads(rows[5], lead) {
        return size(s, rows[5]);
    }
    four(s)
}

// The rows of four bytes.
#[tactic(auto, using(text::proofs::Finder::finding), unfolding(text::specs::Chart::chart, text::specs::Chart::charted))]
fn four(s: &[u8]) -> usize
    ensures { result ≡ charted (drop 6 chart) s.now }
{
    let rows = chart();
    let lead = octets::byte(s, 0);
    if leads(rows[6], lead) {
        return size(s, rows[6]);
    }
    if leads(rows[7], lead) {
        return size(s, rows[7]);
    }
    if leads(rows[8], lead) {
        return size(s, rows[8]);
    }
    0
}

// Whether a number lies in a range.
#[tactic(auto, using(laws::specs::Rows::rows), unfolding(text::specs::Chart::within))]
pub fn within(r: Range, b: usize) -> bool
    ensures { result ≡ within r b }
{
    (r.0..=r.1).contains(&b)
}

// Whether a byte is one of a row's lead bytes.
fn leads(row: Row, lead: usize) -> bool
    ensures { result ≡ within row.0 lead }
{
    within(row.0, lead)
}

// Whether a byte is past a row's lead bytes.
#[tactic(auto, using(laws::specs::Rows::rows))]
fn is_past(row: Row, lead: usize) -> bool
    ensures { result ≡ (row.0.1 <? lead) }
{
    let leads = row.0;
    leads.1 < lead
}

// The length that a row has, where its bytes follow, and else 0.
#[tactic(auto, using(laws::specs::Rows::rows))]
fn size(s: &[u8], row: Row) -> usize
    ensures { result ≡ (follows row s.now ⇒ row.2 ⁏ 0) }
{
    if follows(s, row) { row.2 } else { 0 }
}

// Whether all of a row's bytes are there, and those behind the lead byte are as it says.
#[tactic(auto, using(laws::specs::Rows::rows), unfolding(text::specs::Chart::follows))]
fn follows(s: &[u8], row: Row) -> bool
    ensures { result ≡ follows row s.now }
{
    let n = row.2;
    n <= s.len()
        && (n < 2 || within(row.1, octets::byte(s, 1)))
        && (n < 3 || within(Range(0x80, 0xBF), octets::byte(s, 2)))
        && (n < 4 || within(Range(0x80, 0xBF), octets::byte(s, 3)))
}
