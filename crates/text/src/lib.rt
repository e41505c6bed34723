// Characters of a string, as definitions: u is 0 for UTF-8, and anything else for UTF-16 big-endian. No function: those are in `finder` and
// `strings`.
#![tactic(auto)]

// From the first number to the second, both among them.
#[derive(Clone, Copy)]
pub struct Range(pub usize, pub usize);

// A row of the chart of well-formed UTF-8 byte sequences: the lead bytes, the second bytes, and how many bytes in all.
#[derive(Clone, Copy)]
pub struct Row(pub Range, pub Range, pub usize);
