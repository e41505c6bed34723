// The lent memory, as definitions: what of it is whose, and what a call answers and leaves of it. No function: those are in `relay`.
#![tactic(auto)]
