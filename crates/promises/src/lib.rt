// The promises over whole sessions: statements in specs/, their proofs in proofs/. There is no code
// here: what is promised is said of the definitions that the contracts of `sender`, `reader`,
// `search` and `recording` use.
#![tactic(auto)]
