// Definitions and claims of Req 09, saving and deleting on a flat disk; no code. The crates `allot` and `saving` have it.
#![tactic(auto)]
