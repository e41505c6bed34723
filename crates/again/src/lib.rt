// No code: what the writer cuts is put together again.
#![tactic(auto)]
