// The style book: its check, and looking an index up in it.
#![tactic(auto)]

ghost use Rattle.std.specs.Prelude.{◌≡◌};
ghost use Rattle.style.specs.Record.{filled};
ghost use Rattle.style.specs.Book.{broken, falling, bad_record, count_of, check_of, entry_from, entry_of};

use paper::Refusal;
use paper::limits::{DESCRIPTION_MOST, IN_BAND, RECORD_SIZE, RESERVED};
use style::BadRecord;

fn is_filled(s: &[u8]) -> bool
    ensures { result ≡ filled s.now }
{
    for i in 0..s.len() {
        if 0 < s[i] {
            return true;
        }
    }
    false
}

// The length is read where it is asked for, behind the test of the size.
fn is_broken(r: &[u8]) -> bool
    ensures { result ≡ broken r.now }
{
    r.len() < RECORD_SIZE
        || !(IN_BAND..RESERVED).contains(&octets::byte(r, 0))
        || 0 < octets::byte(r, 1)
        || !(1..=DESCRIPTION_MOST).contains(&octets::number::<2>(r, 2))
        || is_filled(octets::cut(r, 4 + octets::number::<2>(r, 2), RECORD_SIZE))
}

fn is_falling(book: &[u8], i: usize) -> bool
    ensures { result ≡ falling book.now i }
{
    0 < i && records::index_at(book, i) <= records::index_at(book, i - 1)
}

fn bad_record(book: &[u8], i: usize) -> bool
    ensures { result ≡ bad_record book.now i }
{
    is_broken(records::record_at(book, i)) || is_falling(book, i)
}

fn count(book: &[u8]) -> usize
    ensures { result ≡ count_of book.now }
{
    book.len().div_ceil(RECORD_SIZE)
}

// Checks a style book, record by record.
pub fn check(book: &[u8]) -> Result<usize, BadRecord>
    ensures { result ≡ check_of book.now }
{
    let n = count(book);
    for i in 0..n {
        if bad_record(book, i) {
            return Err(BadRecord {
                why: Refusal::Book,
                at: i,
            });
        }
    }
    Ok(n)
}

// The description of the first of n records that has the index; an empty one where none has it, as `entry_from` has it.
fn entry(book: &[u8], index: usize, n: usize) -> &[u8]
    ensures { result.now ≡ entry_from book.now index 0 n }
{
    for i in 0..n {
        if records::index_at(book, i) == index {
            return records::description_of(records::record_at(book, i));
        }
    }
    &book[..0]
}

// The description of an index in a book; an empty one from a book that breaks the rules, as `entry_of` has it.
pub fn of_book(book: &[u8], index: usize) -> &[u8]
    ensures { result.now ≡ entry_of book.now index (check_of book.now) }
{
    match check(book) {
        Ok(n) => entry(book, index, n),
        Err(_) => &book[..0],
    }
}
