// The claims of request N8: ranges that every box grown from a start keeps (specs/Bounds.antt), and that the published helpers give what document 01's
// give (specs/PublishedAgrees.antt). proofs/ proves them. A box runs no code of this crate.
#![tactic(auto)]
