// No code: what a desk that keeps to two open samples gets is the same whatever all others do.
#![tactic(auto)]
