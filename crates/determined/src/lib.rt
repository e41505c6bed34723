// No code: each public function's promise determines its answer and the memory lent to it.
#![tactic(auto)]
