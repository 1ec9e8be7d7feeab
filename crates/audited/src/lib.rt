// Memory that the audit accepts stands for a model, made from it; and what stands for a model passes the audit; in specs/. No code.
#![tactic(auto)]
