// What refusal 12 asks of a sample and of a description.
#![tactic(auto)]

ghost use Rattle.std.specs.Prelude.{◌≡◌};
ghost use Rattle.writer.specs.Write.{unsized, ill_formed, unwritable, undescribed};
ghost use Rattle.writer.specs.Lent.{caption_of};

use paper::limits::{
    DESCRIPTION_MOST, DURATIONS, IN_BAND, RESERVED, SAMPLE_MOST, SIZE_LEAST, SIZE_MOST,
};
use writer::Sample;

fn is_unsized(m: usize, room: usize) -> bool
    ensures { result ≡ unsized m room }
{
    !(SIZE_LEAST..=SIZE_MOST).contains(&m) || room < m
}

fn is_ill_formed(u: usize, s: &[u8]) -> bool
    ensures { result ≡ ill_formed u s.now }
{
    1 < u || !strings::well_formed(u, s)
}

pub fn is_unwritable(c: &Sample, m: usize, room: usize) -> bool
    ensures { result ≡ unwritable (caption_of c.now) m room }
{
    is_ill_formed(c.u, c.string)
        || RESERVED <= c.sidx
        || DURATIONS <= c.sdur
        || SAMPLE_MOST < c.slen()
        || is_unsized(m, room)
}

pub fn is_undescribed(sidx: usize, n: usize, m: usize, room: usize) -> bool
    ensures { result ≡ undescribed sidx n m room }
{
    IN_BAND <= sidx || !(1..=DESCRIPTION_MOST).contains(&n) || is_unsized(m, room)
}
