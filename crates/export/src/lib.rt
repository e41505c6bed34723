// The relay for C and Rust: numbers and slices only. An answer goes as numbers into a lent row. `export_c` has each of these calls by its
// name in C, so each table, and whether a time is known, is a parameter of its own, and 0 stands for none.
#![tactic(auto)]

ghost use Rattle.std.specs.Prelude.{◌≡◌, length, drop};
ghost use Rattle.std.proofs.lemmas.List.Edits.{sets};
ghost use Rattle.paper.specs.Limits.{sample_most, places, rows_need, marks_need, stores_need};
ghost use Rattle.memory.specs.Relay.{looked_up};
ghost use Rattle.memory.specs.Lent.{lent, lent_three};
ghost use Rattle.style.specs.Book.{check_of};
ghost use Rattle.boxes.specs.Step.{step_of};
ghost use Rattle.text.specs.Unicode.{character, well_formed};
ghost use Rattle.writer.specs.Write.{caption, written, described};
ghost use Rattle.numbers.specs.Numbers.{checked_row, stepped_row, name_of, sent_by};
ghost use Rattle.answers.specs.Answers.{row_most};
ghost use Rattle.sizes.specs.Sizes.{place_size, needed};
ghost use Rattle.export.specs.Export.{SetsUpAs, ReceivesAs, GivesUpAs, wrote, written_as};

use paper::limits::SAMPLE_MOST;
use sample::Place;
use writer::Sample;

// The bytes of a place.
pub fn spindlefig_place_size() -> usize
    ensures { result ≡ place_size }
{
    sizes::place()
}

// The least output that receive takes; it holds any sample.
pub fn spindlefig_output() -> usize
    ensures { result ≡ sample_most }
{
    SAMPLE_MOST
}

// The numbers that hold the row of any answer.
pub fn spindlefig_row() -> usize
    ensures { result ≡ row_most }
{
    answers::ROW_MOST
}

// What n desks need, in elements; 0 where n is not 1 to 8.
pub fn spindlefig_places(n: usize) -> usize
    ensures { result ≡ needed places n }
{
    sizes::places(n)
}

pub fn spindlefig_rows(n: usize) -> usize
    ensures { result ≡ needed rows_need n }
{
    sizes::rows(n)
}

pub fn spindlefig_marks(n: usize) -> usize
    ensures { result ≡ needed marks_need n }
{
    sizes::marks(n)
}

pub fn spindlefig_stores(n: usize) -> usize
    ensures { result ≡ needed stores_need n }
{
    sizes::stores(n)
}

// Makes what n desks need fresh. Answers 0, or 1 where it is refused.
pub fn spindlefig_set_up(
    n: usize,
    places: &mut [Place],
    rows: &mut [u32],
    marks: &mut [u32],
    stores: &mut [u8],
) -> usize
    ensures { SetsUpAs n (lent places rows marks stores) result }
{
    let s = relay::set_up(n, places, rows, marks, stores);
    numbers::number_of_result(s)
}

// Takes the unit at the front of the rest, at the running time: unknown where `known` is 0, and `time` is not looked at. Answers the bytes
// used; the row gets all of the answer.
pub fn spindlefig_receive(
    places: &mut [Place],
    rows: &mut [u32],
    marks: &mut [u32],
    stores: &mut [u8],
    desk: usize,
    known: usize,
    time: u32,
    rest: &[u8],
    out: &mut [u8],
    row: &mut [u64],
) -> usize
    ensures { ReceivesAs (lent places rows marks stores) (sent_by desk known time) rest out row result }
{
    let who = numbers::sent_by(desk, known, time);
    let a = relay::receive(places, rows, marks, stores, who, rest, out);
    answers::put_answer(row, a)
}

// Gives a desk's open sample up. Answers 0, or the refusal.
pub fn spindlefig_give_up(
    places: &mut [Place],
    rows: &mut [u32],
    marks: &mut [u32],
    desk: usize,
    time: u32,
) -> usize
    ensures { GivesUpAs (lent_three places rows marks) (name_of desk time) result }
{
    let who = numbers::name_of(desk, time);
    let g = relay::give_up(places, rows, marks, who);
    numbers::number_of_result(g)
}

// Writes the description that an index shows to the front of the output, and answers its length; 0 where there is none.
pub fn spindlefig_lookup<'a>(
    marks: &[u32],
    stores: &'a [u8],
    desk: usize,
    index: usize,
    book: &'a [u8],
    out: &mut [u8],
) -> usize
    ensures { (result ≡ length (looked_up marks.now stores.now desk index book.now))
        × (out.new ≡ sets out.old 0
        (looked_up marks.now stores.now desk index book.now)) }
{
    let d = relay::lookup(marks, stores, desk, index, book);
    octets::put(out, 0, d);
    d.len()
}

// Checks a style book.
pub fn spindlefig_check(book: &[u8], row: &mut [u64])
    ensures { row.new ≡ sets row.old 0 (checked_row (check_of book.now)) }
{
    numbers::put_checked(row, book::check(book));
}

// Writes payload k of a sample.
pub fn spindlefig_write(
    u: usize,
    sidx: usize,
    sdur: usize,
    string: &[u8],
    modifiers: &[u8],
    m: usize,
    k: usize,
    out: &mut [u8],
    row: &mut [u64],
)
    ensures { wrote out.new row.new
        ≡ written_as (written (caption u sidx sdur string.now modifiers.now) m k out.old)
        row.old }
{
    let c = Sample {
        u,
        sidx,
        sdur,
        string,
        modifiers,
    };
    numbers::put_written(row, writes::write_sample(&c, m, k, out));
}

// Writes the payload of a description.
pub fn spindlefig_describe(
    sidx: usize,
    d: &[u8],
    m: usize,
    k: usize,
    out: &mut [u8],
    row: &mut [u64],
)
    ensures { wrote out.new row.new
        ≡ written_as (described sidx d.now m k out.old) row.old }
{
    numbers::put_written(row, describes::write_description(sidx, d, m, k, out));
}

// What stands at a place of the modifiers. A box's contents are the bytes from its place and 8 on, up to the next place.
pub fn spindlefig_box(modifiers: &[u8], at: usize, row: &mut [u64])
    ensures { row.new
        ≡ sets row.old 0
        (stepped_row (step_of modifiers.now at).next (step_of modifiers.now at).found) }
{
    let s = boxes::step(modifiers, at);
    numbers::put_stepped(row, s.next, s.found);
}

// The length of the character at a place, and 0 where none is well-formed.
#[tactic(auto, using(text::specs::Found::found_or))]
pub fn spindlefig_character(u: usize, s: &[u8], at: usize) -> usize
    ensures { result ≡ character u (drop at s.now) }
{
    finder::character(u, s, at).unwrap_or(0)
}

// Whether all of s is well-formed.
pub fn spindlefig_well_formed(u: usize, s: &[u8]) -> bool
    ensures { result ≡ well_formed u s.now }
{
    strings::well_formed(u, s)
}
