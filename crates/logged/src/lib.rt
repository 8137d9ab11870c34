// What is printed for a whole file: no code, only the theorem that the lines of its places, one after the other, are the answers to the events of
// its sound blocks from reset, and then the line of the first bad place if there is one.
#![tactic(auto)]
