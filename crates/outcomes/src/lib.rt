// What the calls' contracts say, in specs/: readings of a memory, the audit's condition, each call's outcome, lists of calls. No code.
#![tactic(auto)]
