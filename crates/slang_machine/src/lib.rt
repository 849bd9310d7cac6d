//! A machine that reads a text of Slang token by token, by the grammar: what may be open, what may come next, and what each token
//! leads to. Definitions in `specs/`, tried on small texts.
#![tactic(auto)]
