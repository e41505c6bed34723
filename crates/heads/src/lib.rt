// No code: a call is lent the place itself, and what it reads and writes there the library's index of a slice says.
#![tactic(auto)]
