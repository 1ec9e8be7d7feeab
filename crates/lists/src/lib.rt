#![tactic(auto)]

// Computing functions on lists and their laws, in specs/. No code.
