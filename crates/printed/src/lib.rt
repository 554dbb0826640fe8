// Printed: no code; what a printed answer says, and that it is the answer.
#![tactic(auto)]
