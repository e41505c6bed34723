// One call's work for one desk, as definitions: what it has, what a call leaves and answers. No function: those are in `asks`, `ends`,
// `grows`, `begins`, `singles`, `settle` and `others`.
#![tactic(auto)]

// How many samples the desk has open, the common use, and how many desks there are.
#[derive(Clone, Copy)]
pub struct Shares {
    pub opens: usize,
    pub common: usize,
    pub desks: usize,
}
