// Orders of actions of any type: the definitions are in specs/, and the proofs of what holds of them in proofs/.

#![tactic(auto)]
