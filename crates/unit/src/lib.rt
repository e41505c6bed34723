// The units of document 01, as definitions: their layouts, read and written, and their limits. No function: those are in `reads` and
// `header`.
#![tactic(auto)]

use paper::Refusal;

// TYPE 1. `start` and `len` say where its data, the sample, stands in the rest.
#[derive(Clone, Copy)]
pub struct Whole {
    pub u: usize,
    pub sidx: usize,
    pub sdur: usize,
    pub tlen: usize,
    pub start: usize,
    pub len: usize,
}

// TYPE 2, 3 or 4, by `kind`; in TYPE 3 and 4, which do not have them, u, sidx and slen are 0. `kind` is a number, since `put_part` promises
// what it does with any (unit Head: `modifiers_head`).
#[derive(Clone, Copy)]
pub struct Part {
    pub kind: usize,
    pub total: usize,
    pub this: usize,
    pub sdur: usize,
    pub u: usize,
    pub sidx: usize,
    pub slen: usize,
    pub start: usize,
    pub len: usize,
}

// TYPE 5.
#[derive(Clone, Copy)]
pub struct Description {
    pub sidx: usize,
    pub start: usize,
    pub len: usize,
}

#[derive(Clone, Copy)]
pub enum Unit {
    End,
    // the TYPE
    Skipped(usize),
    Refused(Refusal),
    Whole(Whole),
    Part(Part),
    Description(Description),
}

// What stands at the front of a rest, and how many bytes of the rest it uses.
#[derive(Clone, Copy)]
pub struct Reading {
    pub used: usize,
    pub unit: Unit,
}
