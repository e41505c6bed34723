// A lookup: over one desk's store, and over the marks and the stores of all desks.
#![tactic(auto)]

ghost use Rattle.std.specs.Prelude.{◌≡◌};
ghost use Rattle.style.specs.Shown.{shown};
ghost use Rattle.memory.specs.Relay.{looked_up};

use paper::limits::{HEAD_SIZE, IN_BAND, MARKS_EACH, RESERVED, STORE_SIZE};
use window::Window;

// Shows the description of an index, as a part of the desk's store or of the book; an empty one where there is none, as `shown` has it.
pub fn show<'a>(book: &'a [u8], w: &Window<'a>, index: usize) -> &'a [u8]
    ensures { result.now ≡ shown book.now w.now.store.now w.now.newest index }
{
    if index < IN_BAND {
        w.description_of(index)
    } else if index < RESERVED {
        book::of_book(book, index)
    } else {
        &book[..0]
    }
}

// Shows a description as a part of the book or of the desk's own store.
pub fn look_up<'a>(
    marks: &[u32],
    stores: &'a [u8],
    desk: usize,
    index: usize,
    book: &'a [u8],
) -> &'a [u8]
    ensures { result.now ≡ looked_up marks.now stores.now desk index book.now }
{
    let n = gate::desks_of(marks);
    if gate::is_stranger(n, desk)
        || marks.len() < HEAD_SIZE + MARKS_EACH * n
        || stores.len() < STORE_SIZE * n
    {
        return &book[..0];
    }
    let store = octets::cut(stores, STORE_SIZE * desk, STORE_SIZE);
    let newest = octets::word(marks, HEAD_SIZE + MARKS_EACH * desk + 1) as usize;
    show(book, &Window { store, newest }, index)
}
