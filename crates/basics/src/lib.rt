// Lists, truth values and order: definitions in specs/, their laws in proofs/. There is no code here.
#![tactic(auto)]
