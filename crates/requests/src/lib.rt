// What the requests say of the machine that they amend: no code, only the theorems.
#![tactic(auto)]
