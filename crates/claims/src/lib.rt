// No code: what is promised of the judge, and the proofs of it.
#![tactic(auto)]
