// Characters: what the finder, the well-formedness test and the boundary say of a string. The stored output is what a decoder that is
// not ours says of the same bytes.
use crate::{print, script};
use std::io;
use std::io::Print;

const STRING_MOST: usize = 20;

// Of a string in the encoding u: the length of the character at a place, whether it is well-formed, and its boundary within a limit.
fn show(rt: &impl Print, u: usize, s: &[u8], at: usize, limit: usize) -> io::Result<()> {
    print::number(rt, finder::character(u, s, at).unwrap_or(0))?;
    print::answer(rt, strings::well_formed(u, s))?;
    print::number(rt, strings::boundary(u, s, at, limit))
}

// `text U AT LIMIT BYTES`.
pub(crate) fn text(rt: &impl Print, line: &[u8]) -> io::Result<()> {
    let mut s = [0u8; STRING_MOST];
    show(
        rt,
        script::number(line, 1),
        script::bytes(line, 4, &mut s),
        script::number(line, 2),
        script::number(line, 3),
    )
}
