//! What a token leads to is accounted for: expressions, types, constants, statements and steps of proofs. Lemmas alone, in `proofs/`.
#![tactic(auto)]
