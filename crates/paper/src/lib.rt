// The vocabulary of document 01, with the refusals of the requests that landed: refusals, limits, and what a call answers.
#![tactic(auto)]

pub mod limits;

ghost use Rattle.std.specs.Prelude.{◌≡◌};
ghost use Rattle.paper.specs.Words.{number_of, kind_of, whose};

// Why a call is refused; `number_of` gives each its number in the paper.
#[derive(Clone, Copy, Debug, PartialEq, Eq)]
pub enum Refusal {
    Desk,
    Output,
    Frame,
    Fields,
    Size,
    Late,
    Conflict,
    Six,
    Common,
    Spoiled,
    NotOpen,
    Writer,
    Parts,
    Payload,
    Box,
    Book,
    IllFormed,
    Untimed,
}

// The running time of a unit. Behind a line whose duration is not known yet it is unknown; every number is a time.
pub type Time = Option<u32>;

// The name of a sample: its desk and its time.
#[derive(Clone, Copy, Debug, PartialEq, Eq)]
pub struct Name {
    pub desk: usize,
    pub time: u32,
}

// Who sends a unit: a desk, and the running time.
#[derive(Clone, Copy, Debug, PartialEq, Eq)]
pub struct Sender {
    pub desk: usize,
    pub time: Time,
}

// Whose sample a name is: its desk's, at its time.
impl From<Name> for Sender {
    ghost from_gives = { λ n s. s ≡ whose n };

    fn from(name: Name) -> Sender {
        Sender {
            desk: name.desk,
            time: Some(name.time),
        }
    }
}

// What is told of a sample that is handed out: its time, U, SIDX, SDUR, and how long its string and all of it are.
#[derive(Clone, Copy, Debug, PartialEq, Eq)]
pub struct Facts {
    pub time: u32,
    pub u: usize,
    pub sidx: usize,
    pub sdur: usize,
    pub string: usize,
    pub sample: usize,
}

#[derive(Clone, Copy, Debug, PartialEq, Eq)]
pub enum Outcome {
    End,
    Whole(Facts),
    Joined(Facts),
    // how many parts are still missing
    Kept(usize),
    Repeat,
    Described,
    // the TYPE
    Skipped(usize),
    Refused(Refusal),
}

// What a call answers: the bytes used, the next running time, the outcome.
#[derive(Clone, Copy, Debug, PartialEq, Eq)]
pub struct Answer {
    pub used: usize,
    pub next: Time,
    pub outcome: Outcome,
}

// Each refusal's number in the paper.
impl From<Refusal> for usize {
    ghost from_gives = { λ r n. n ≡ number_of r };

    fn from(r: Refusal) -> usize {
        match r {
            Refusal::Desk => 1,
            Refusal::Output => 2,
            Refusal::Frame => 3,
            Refusal::Fields => 4,
            Refusal::Size => 5,
            Refusal::Late => 6,
            Refusal::Conflict => 7,
            Refusal::Six => 8,
            Refusal::Common => 9,
            Refusal::Spoiled => 10,
            Refusal::NotOpen => 11,
            Refusal::Writer => 12,
            Refusal::Parts => 13,
            Refusal::Payload => 14,
            Refusal::Box => 15,
            Refusal::Book => 16,
            Refusal::IllFormed => 17,
            Refusal::Untimed => 18,
        }
    }
}

impl Outcome {
    // The place of the outcome in the paper's list.
    pub fn kind(self) -> usize
        ensures { result ≡ kind_of self }
    {
        match self {
            Outcome::End => 0,
            Outcome::Whole(_) => 1,
            Outcome::Joined(_) => 2,
            Outcome::Kept(_) => 3,
            Outcome::Repeat => 4,
            Outcome::Described => 5,
            Outcome::Skipped(_) => 6,
            Outcome::Refused(_) => 7,
        }
    }
}
