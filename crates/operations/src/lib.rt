// Definitions only: Compile, Run, List and Exchange stand in specs/; the demands are proved over them in proofs/.
#![tactic(auto)]
