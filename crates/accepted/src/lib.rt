// Which sheets are accepted: the laws stand in proofs/. There is no code here.
#![tactic(auto)]
