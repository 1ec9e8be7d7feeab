// What a history tells of a store that stands for a model: pointers, pages and who lives, in specs/. No code.
#![tactic(auto)]
