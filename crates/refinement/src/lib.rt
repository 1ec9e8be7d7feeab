// When a store stands for a model of the reference, and that each call's outcome keeps it so, in specs/. No code.
#![tactic(auto)]
