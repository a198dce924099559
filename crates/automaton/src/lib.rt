// Definitions only: the numbered Thompson tree automaton, tables and state sets stand in specs/, their laws in proofs/.
#![tactic(auto)]
