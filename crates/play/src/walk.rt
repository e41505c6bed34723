// The box walk over good and broken modifiers.
use crate::{print, script};
use paper::Refusal;
use std::io;
use std::io::Print;

const MODIFIERS_MOST: usize = 20;

fn found(rt: &impl Print, f: Result<Option<usize>, Refusal>) -> io::Result<()> {
    match f {
        Ok(None) => print::number(rt, 0),
        Ok(Some(t)) => print::numbers(rt, &[1, t]),
        Err(r) => print::refused(rt, r),
    }
}

// What stands at a place (0 for the end, 1 and the type for a box), the next place, and the contents.
fn place(rt: &impl Print, m: &[u8], at: usize) -> io::Result<()> {
    let s = boxes::step(m, at);
    found(rt, s.found)?;
    print::number(rt, s.next)?;
    print::bytes(rt, boxes::contents(m, at))
}

// `modifiers AT BYTES`.
pub(crate) fn modifiers(rt: &impl Print, line: &[u8]) -> io::Result<()> {
    let mut m = [0u8; MODIFIERS_MOST];
    place(rt, script::bytes(line, 2, &mut m), script::number(line, 1))
}
