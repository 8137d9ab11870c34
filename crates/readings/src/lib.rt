// The bench readings a to j of document 01: no code, only a table and the theorem that the definition of the machine gives every row of it.
#![tactic(auto)]
