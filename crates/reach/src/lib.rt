// Demand 2 over lists: no code, only the theorem that the entry point is the machine of document 01 on every list of events from reset.
#![tactic(auto)]
