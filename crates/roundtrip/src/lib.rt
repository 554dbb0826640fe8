// Roundtrip: no code; what reading the text of a table back gives (order 2), and the theorems about it.
#![tactic(auto)]
