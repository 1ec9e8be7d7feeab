// What every call promises, whatever it is asked: demand 1's statements and their proofs, in specs/. No code.
#![tactic(auto)]
