// The demands, as theorems about bytes: they stand in proofs/. There is no code here.
#![tactic(auto)]
