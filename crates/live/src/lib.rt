// No code: what a line of unknown length makes of the running time.
#![tactic(auto)]
