// Definitions only: regular tree expressions and their languages stand in specs/, their laws in proofs/.
#![tactic(auto)]
