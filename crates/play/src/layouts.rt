// Units: what is read off a rest, and the header that is put down for a unit.
use crate::{print, script};
use std::io;
use std::io::Print;
use unit::{Description, Part, Unit, Whole};

const REST_MOST: usize = 20;

fn whole(rt: &impl Print, w: Whole) -> io::Result<()> {
    print::numbers(rt, &[1, w.u, w.sidx, w.sdur, w.tlen, w.start, w.len])
}

fn part(rt: &impl Print, w: Part) -> io::Result<()> {
    print::numbers(
        rt,
        &[
            w.kind, w.total, w.this, w.sdur, w.u, w.sidx, w.slen, w.start, w.len,
        ],
    )
}

fn description(rt: &impl Print, w: Description) -> io::Result<()> {
    print::numbers(rt, &[5, w.sidx, w.start, w.len])
}

// The TYPE of a unit and its fields; 0 at the end.
fn tell(rt: &impl Print, x: Unit) -> io::Result<()> {
    match x {
        Unit::End => print::number(rt, 0),
        Unit::Skipped(t) => print::number(rt, t),
        Unit::Refused(r) => print::refused(rt, r),
        Unit::Whole(w) => whole(rt, w),
        Unit::Part(w) => part(rt, w),
        Unit::Description(w) => description(rt, w),
    }
}

// `rest BYTES`: the bytes used, and the unit.
pub(crate) fn rest(rt: &impl Print, line: &[u8]) -> io::Result<()> {
    let mut s = [0u8; REST_MOST];
    let r = reads::read(script::bytes(line, 1, &mut s));
    print::number(rt, r.used)?;
    tell(rt, r.unit)
}

// A header's length, and the output after it was put over twelve bytes of aa.
fn head(rt: &impl Print, x: Unit) -> io::Result<()> {
    let mut out = [0xaau8; 12];
    print::number(rt, header::put_head(&mut out, x))?;
    print::bytes(rt, &out)
}

// A header of the numbers in their order: `head-whole U SIDX SDUR TLEN LEN`.
pub(crate) fn head_whole(rt: &impl Print, line: &[u8]) -> io::Result<()> {
    head(
        rt,
        Unit::Whole(Whole {
            u: script::number(line, 1),
            sidx: script::number(line, 2),
            sdur: script::number(line, 3),
            tlen: script::number(line, 4),
            start: 9,
            len: script::number(line, 5),
        }),
    )
}

// `head-part TYPE TOTAL THIS SDUR U SIDX SLEN LEN`.
pub(crate) fn head_part(rt: &impl Print, line: &[u8]) -> io::Result<()> {
    head(
        rt,
        Unit::Part(Part {
            kind: script::number(line, 1),
            total: script::number(line, 2),
            this: script::number(line, 3),
            sdur: script::number(line, 4),
            u: script::number(line, 5),
            sidx: script::number(line, 6),
            slen: script::number(line, 7),
            start: 0,
            len: script::number(line, 8),
        }),
    )
}

// `head-description SIDX LEN`.
pub(crate) fn head_description(rt: &impl Print, line: &[u8]) -> io::Result<()> {
    head(
        rt,
        Unit::Description(Description {
            sidx: script::number(line, 1),
            start: 4,
            len: script::number(line, 2),
        }),
    )
}

// `head-skipped TYPE`, which has no header.
pub(crate) fn head_skipped(rt: &impl Print, line: &[u8]) -> io::Result<()> {
    head(rt, Unit::Skipped(script::number(line, 1)))
}
