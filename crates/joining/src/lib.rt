// No code: what a complete set of parts is put together to, on paper.
#![tactic(auto)]
