// The round trip of a block: what the service channel says and what is sorted out of a block that
// was written is what it was written from. There is no code here: proofs/ says it of the definitions
// that the contracts of `frame`, `service` and `sorter` use.
#![tactic(auto)]
