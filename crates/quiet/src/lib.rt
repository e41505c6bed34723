// No code: worked runs of a quiet desk, beside one that takes all it can get and among seven others.
#![tactic(auto)]
