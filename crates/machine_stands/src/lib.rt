//! What each state of the machine says of the tokens before it, as accounts of the grammar, and where statements, blocks and bodies
//! end. Definitions and lemmas alone, in `proofs/`.
#![tactic(auto)]
