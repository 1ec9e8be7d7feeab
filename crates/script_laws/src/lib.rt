// What holds of every script; theorems only, in specs/.
#![tactic(auto)]
