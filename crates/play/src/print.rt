// Numbers and bytes on standard output, a blank before each.
use paper::Refusal;
use std::io;
use std::io::Print;

pub(crate) fn text(rt: &impl Print, s: &[u8]) -> io::Result<()> {
    rt.write_all(s)
}

pub(crate) fn blank(rt: &impl Print) -> io::Result<()> {
    text(rt, b" ")
}

pub(crate) fn end_line(rt: &impl Print) -> io::Result<()> {
    text(rt, b"\n")
}

pub(crate) fn number(rt: &impl Print, n: usize) -> io::Result<()> {
    print!(rt; " {n}")
}

pub(crate) fn numbers(rt: &impl Print, s: &[usize]) -> io::Result<()> {
    for n in s {
        number(rt, *n)?;
    }
    Ok(())
}

pub(crate) fn refused(rt: &impl Print, r: Refusal) -> io::Result<()> {
    text(rt, b" refused")?;
    number(rt, usize::from(r))
}

// A yes or a no.
pub(crate) fn answer(rt: &impl Print, yes: bool) -> io::Result<()> {
    if yes {
        text(rt, b" yes")
    } else {
        text(rt, b" no")
    }
}

// Bytes in hexadecimal behind a colon.
pub(crate) fn bytes(rt: &impl Print, s: &[u8]) -> io::Result<()> {
    text(rt, b" :")?;
    for byte in s {
        print!(rt; " {byte:02x}")?;
    }
    Ok(())
}

// What was laid into an output: its first sixteen bytes, and its last four with the two behind them.
pub(crate) fn laid(rt: &impl Print, out: &[u8], n: usize) -> io::Result<()> {
    bytes(rt, octets::cut(out, 0, n.min(16)))?;
    bytes(rt, octets::cut(out, n.saturating_sub(4), 6))
}
