// No code: what every call of the relay keeps to.
#![tactic(auto)]
