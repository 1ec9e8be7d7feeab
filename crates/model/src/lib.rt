#![tactic(auto)]

// The reference model of the store, its laws and its rows of sessions, in specs/. No code.
