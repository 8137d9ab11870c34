// Theorem crate: what is printed for records is read as these records.
#![tactic(auto)]
