#![tactic(auto)]
// No code: specs/ says which bytes spell a layout, what flaws it has, and where bytes that spell none break; proofs/ that the mask is told by these.
