// The claims about whole nights: specs/ has demand 3 and requests N3, N4, N12 and N13, all of the box's own tick, and proofs/ prove them. A box runs no code of this crate.
#![tactic(auto)]
