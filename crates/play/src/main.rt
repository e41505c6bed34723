// Plays the script on standard input: a line is a call of the relay or of a leaf, and what it answers is printed behind it.
#![tactic(auto)]

mod characters;
mod cutting;
mod desks;
mod layouts;
mod print;
mod script;
mod times;
mod walk;

use hall::Hall;
use script::Call;
use std::io;
use std::io::Print;

// The longest script, in bytes.
const SCRIPT_MOST: usize = 65536;

// What a call answers, printed behind its line. The relay is lent, since it is large: what is handed on by value is copied at each line.
fn answer(rt: &impl Print, h: &mut Hall, call: Call, line: &[u8]) -> io::Result<()> {
    match call {
        Call::Text => characters::text(rt, line),
        Call::Rest => layouts::rest(rt, line),
        Call::HeadWhole => layouts::head_whole(rt, line),
        Call::HeadPart => layouts::head_part(rt, line),
        Call::HeadDescription => layouts::head_description(rt, line),
        Call::HeadSkipped => layouts::head_skipped(rt, line),
        Call::Sample => cutting::sample(rt, line),
        Call::Enough => cutting::fields(rt, line, &mut [0xaa; 17]),
        Call::Short => cutting::fields(rt, line, &mut [0xaa; 16]),
        Call::Description => cutting::description(rt, line),
        Call::Modifiers => walk::modifiers(rt, line),
        Call::Mark => times::mark(rt, line, &mut times::EIGHTEEN),
        Call::MarkThree => times::mark(rt, line, &mut times::THREE),
        Call::Book => desks::book(rt, line),
        Call::SetUp => {
            *h = desks::set_up(line);
            Ok(())
        }
        Call::Receive => desks::receive(rt, h, line),
        Call::Send => desks::send(rt, h, line),
        Call::GiveUp => desks::give_up(rt, h, line),
        Call::Look => desks::look(rt, h, line),
    }
}

// A line that is no remark: the line itself, and then what its call answers; a question mark where it is no call.
fn play_line(rt: &impl Print, h: &mut Hall, line: &[u8]) -> io::Result<()> {
    if script::is_remark(line) {
        return Ok(());
    }
    print::text(rt, line)?;
    let Ok(call) = Call::try_from(script::word(line, 0)) else {
        return print::text(rt, b" ?\n");
    };
    print::text(rt, b" =")?;
    answer(rt, h, call, line)?;
    print::end_line(rt)
}

// The lines one after the other.
fn play(rt: &impl Print, text: &[u8]) -> io::Result<()> {
    let mut h = hall::set_up(1);
    for line in text.split_inclusive(|byte| *byte == b'\n') {
        play_line(rt, &mut h, line.strip_suffix(b"\n").unwrap_or(line))?;
    }
    Ok(())
}

fn main(rt: HostRuntime) -> io::Result<()> {
    let mut text = [0u8; SCRIPT_MOST];
    let n = input::read_full(&mut rt.stdin(), &mut text)?;
    play(&rt, &text[..n])
}
