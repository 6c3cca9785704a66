#![tactic(auto)]
// No code: proofs/Demands.antt is the page that states what the owner demands.
