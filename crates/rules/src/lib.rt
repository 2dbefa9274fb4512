// No code: document 01 as definitions on lists, in specs/, and what is proved of them, in proofs/.
#![tactic(auto)]
