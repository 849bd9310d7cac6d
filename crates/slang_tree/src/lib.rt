//! The trees of a text, with the place of each part, and what is wrong with a text.
//!
//! Contracts see a `Text` as its bytes, an `Items` as a list and a `Boxed` as its value, so a tree is plain data.
#![tactic(auto)]

mod declaration;
mod expression;
mod place;
mod rules;
mod statement;
mod text;

pub use declaration::{
    Const, Decl, FieldDecl, File, GlobalDecl, MethodDecl, NamedFile, Param, RecordDecl, Return,
};
pub use expression::{Expr, Name, Operator, TypeName};
pub use place::{Fault, FileFault, Place};
pub use rules::{Cited, Rule, rule_named, rule_numbered};
pub use statement::{Label, Step, Stmt};
pub use text::Text;
