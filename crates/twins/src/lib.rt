#![tactic(auto)]
// No code: specs/ says how a write list is read whatever names were used, which names are met, and which frame is the first with a name that its object has
// already; proofs/ that refusal 4 is told by it.
