#![tactic(auto)]

// The three demands as statements, and their proofs, in specs/. No code.
