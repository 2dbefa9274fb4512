// No code: the demands as theorems about the definitions that the public contracts are equal to.
#![tactic(auto)]
