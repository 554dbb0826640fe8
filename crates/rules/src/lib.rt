// Rules: no code; the definitions of document 01 and the theorems about them.
#![tactic(auto)]
