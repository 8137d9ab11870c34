// Demand 3: no code, only the claim about two alike lists of events and its proof.
#![tactic(auto)]
