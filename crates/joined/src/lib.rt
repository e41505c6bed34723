// No code: what is told and handed out of a sample is what its parts say, for every sender.
#![tactic(auto)]
