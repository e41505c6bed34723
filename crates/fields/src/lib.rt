// The table of layouts: where the fields of each TYPE stand, and what of LEN is data.
#![tactic(auto)]

ghost use Rattle.std.specs.Prelude.{◌≡◌};
ghost use Rattle.unit.specs.Layout.{whole_at, string_at, modifiers_at, description_at, fields_of};

use unit::{Description, Part, Unit, Whole};

fn read_whole(s: &[u8], u: usize, len: usize) -> Unit
    ensures { result ≡ whole_at s.now u len }
{
    Unit::Whole(Whole {
        u,
        sidx: octets::byte(s, 3),
        sdur: octets::number::<3>(s, 4),
        tlen: octets::number::<2>(s, 7),
        start: 9,
        len: len.saturating_sub(8),
    })
}

fn read_string(s: &[u8], u: usize, len: usize) -> Unit
    ensures { result ≡ string_at s.now u len }
{
    let counts = octets::byte(s, 3);
    Unit::Part(Part {
        kind: 2,
        total: counts / 16 % 16,
        this: counts % 16,
        sdur: octets::number::<3>(s, 4),
        u,
        sidx: octets::byte(s, 7),
        slen: octets::number::<2>(s, 8),
        start: 10,
        len: len.saturating_sub(9),
    })
}

fn read_modifiers(s: &[u8], kind: usize, len: usize) -> Unit
    ensures { result ≡ modifiers_at s.now kind len }
{
    let counts = octets::byte(s, 3);
    Unit::Part(Part {
        kind,
        total: counts / 16 % 16,
        this: counts % 16,
        sdur: octets::number::<3>(s, 4),
        u: 0,
        sidx: 0,
        slen: 0,
        start: 7,
        len: len.saturating_sub(6),
    })
}

fn read_description(s: &[u8], len: usize) -> Unit
    ensures { result ≡ description_at s.now len }
{
    Unit::Description(Description {
        sidx: octets::byte(s, 3),
        start: 4,
        len: len.saturating_sub(3),
    })
}

// What the table says of a unit, by its TYPE; whether that keeps to the limits is asked in `reads`.
#[tactic(auto, using(laws::specs::Rows::rows), unfolding(unit::specs::Layout::fields_of))]
pub fn read_fields(s: &[u8], u: usize, kind: usize, len: usize) -> Unit
    ensures { result ≡ fields_of s.now u kind len }
{
    match kind {
        1 => read_whole(s, u, len),
        2 => read_string(s, u, len),
        3 | 4 => read_modifiers(s, kind, len),
        5 => read_description(s, len),
        _ => Unit::Skipped(kind),
    }
}
