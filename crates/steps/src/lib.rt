// No function: the steps of a call, on paper: what is planned, what is kept of it, and what is put back.
#![tactic(auto)]
