// No code: what a list of accepted events says stands in specs/, and what is proved of it in proofs/.
#![tactic(auto)]
