// No code: document 01's twelve cases, one statement over one list.
#![tactic(auto)]
