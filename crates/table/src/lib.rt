// The lent table of places, as definitions: what is asked of its first m places, and what a store leaves. No function: `finds` and
// `counts` look at it, `heads` and `frees` store to it.
#![tactic(auto)]
