// What the judge answers to a trace: the definition of the answer, and the laws of it. No code.
#![tactic(auto)]
