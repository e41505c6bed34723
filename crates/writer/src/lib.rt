// Cutting a sample into payloads, and a description's payload, as definitions: document 01, 'Writing and boxes'. What writes them is in
// `writes` and `describes`.
#![tactic(auto)]

ghost use Rattle.std.specs.Prelude.{◌≡◌, length};
ghost use Rattle.writer.specs.Write.{sample};
ghost use Rattle.writer.specs.Lent.{caption_of};

// A sample that is to be sent, its string and modifiers lent.
#[derive(Clone, Copy)]
pub struct Sample<'a> {
    pub u: usize,
    pub sidx: usize,
    pub sdur: usize,
    pub string: &'a [u8],
    pub modifiers: &'a [u8],
}

impl Sample<'_> {
    // How long the whole sample is.
    pub fn slen(&self) -> usize
        ensures { result ≡ length (sample (caption_of self.now)) }
    {
        self.string.len() + self.modifiers.len()
    }
}

// A payload's length, and how many payloads there are.
#[derive(Clone, Copy)]
pub struct Payload {
    pub len: usize,
    pub count: usize,
}

// A part's number, from 1, and how many parts there are.
#[derive(Clone, Copy)]
pub struct PartNumber {
    pub this: usize,
    pub total: usize,
}

// How many string parts were passed, and from where to where the wanted one goes: it is among them if its number is at most `count`, and
// no value of `from` or `to` tells so. The definition `sought` and its theorems have these three numbers.
#[derive(Clone, Copy)]
pub struct PartFound {
    pub count: usize,
    pub from: usize,
    pub to: usize,
}
