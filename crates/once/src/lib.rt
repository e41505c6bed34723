// No code: a sample whose payloads all come to a desk that keeps to two open samples is handed out exactly once.
#![tactic(auto)]
