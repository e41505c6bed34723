// Lists the payload on standard input: a line a unit, on standard output.
#![tactic(auto)]

use std::io;

// One byte more than a payload that is listed has.
const INPUT_MOST: usize = 4097;

const TEXT_MOST: usize = 65536;

fn main(rt: HostRuntime) -> io::Result<()> {
    let mut input = [0u8; INPUT_MOST];
    let n = input::read_full(&mut rt.stdin(), &mut input)?;
    let mut text = [0u8; TEXT_MOST];
    let end = list::list(&input[..n], &mut text);
    rt.write_all(octets::cut(&text, 0, end))
}
