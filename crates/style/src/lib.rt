// Descriptions, as definitions: records of 260 bytes, the style book, a desk's window of in-band values, and what is shown. No function:
// those are in `records`, `book`, `window`, `slots`, `notes` and `shows`.
#![tactic(auto)]

use paper::{Outcome, Refusal};

// Why a style book is refused, and the number of its first bad record, from 0.
#[derive(Clone, Copy)]
pub struct BadRecord {
    pub why: Refusal,
    pub at: usize,
}

// What a description unit gives: the newest value from now on, and the outcome.
#[derive(Clone, Copy)]
pub struct Noted {
    pub newest: usize,
    pub outcome: Outcome,
}
