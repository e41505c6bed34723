// The place of one open sample, and what document 01's 'Joining' decides about it, as definitions. No function: those are in `bare`,
// `keeps`, `parts`, `repeats`, `order`, `lengths` and `together`.
#![tactic(auto)]

use paper::limits::{PARTS_MOST, SAMPLE_MOST};

// An open sample. U, SIDX and SLEN are those of its first TYPE 2 part, once `told`; bit THIS - 1 of `mask`, and place THIS - 1 of
// `kinds`, `starts` and `lens`, are part THIS's; the first `filled` of the bytes are in use.
#[repr(C)]
#[derive(Clone, Copy)]
pub struct Place {
    pub used: bool,
    pub desk: usize,
    pub time: u32,
    pub total: usize,
    pub sdur: usize,
    pub told: bool,
    pub u: usize,
    pub sidx: usize,
    pub slen: usize,
    pub mask: u32,
    pub filled: usize,
    pub kinds: [usize; PARTS_MOST],
    pub starts: [usize; PARTS_MOST],
    pub lens: [usize; PARTS_MOST],
    pub bytes: [u8; SAMPLE_MOST],
}

// How long a sample's string is, and all of it.
#[derive(Clone, Copy)]
pub struct Lengths {
    pub string: usize,
    pub sample: usize,
}
