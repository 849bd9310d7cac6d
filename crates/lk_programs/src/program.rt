use crate::expression::{Expr, NodeNo};
use lk_claims::{Claim, ProofStep, Ty};
use slang_tree::{Place, Text};
use sqlite_items::Items;

/// A record's name and its fields.
#[derive(Drop)]
pub struct RecordTy {
    pub name: Text,
    pub fields: Items<FieldTy>,
}

/// The name and the type of a field or of a parameter.
#[derive(Drop)]
pub struct FieldTy {
    pub name: Text,
    pub ty: Ty,
}

/// A global with its initial value, which is a constant. One that is fixed is a `val`.
#[derive(Drop)]
pub struct Global {
    pub name: Text,
    pub fixed: bool,
    pub ty: Ty,
    pub init: Expr,
}

/// A claim of the text, with its node.
#[derive(Drop)]
pub struct Noted {
    pub claim: Claim,
    pub node: NodeNo,
}

/// Where a node stands: the file by its number, and the place in it.
#[derive(Clone, Copy, Debug, PartialEq, Eq)]
pub struct NodePlace {
    pub file: u32,
    pub place: Place,
}

/// A statement over the variables of its method.
#[derive(Drop)]
pub enum Code {
    /// A `val` or a `var`: a local has this value from here on.
    Val {
        node: NodeNo,
        variable: u32,
        value: Expr,
    },
    Assign {
        node: NodeNo,
        variable: u32,
        value: Expr,
    },
    /// A call of the method of that number, whose name has a node of its own. Its result goes to the target, where
    /// there is one.
    Call {
        node: NodeNo,
        target: Option<u32>,
        name: NodeNo,
        method: u32,
        arguments: Items<Expr>,
    },
    If {
        node: NodeNo,
        test: Expr,
        then: Items<Code>,
        otherwise: Items<Code>,
    },
    While {
        node: NodeNo,
        test: Expr,
        modifies: Items<u32>,
        invariants: Items<Noted>,
        body: Items<Code>,
    },
    Assert(Noted),
    Deduce {
        node: NodeNo,
        steps: Items<ProofStep>,
    },
    Return {
        node: NodeNo,
        value: Expr,
    },
}

/// A method with its contract and its body. Its variables are numbered: first its locals, which are its parameters and
/// then its `val`s and `var`s in the order of the text, then the globals, then what the globals were when the method
/// began, and last its result. What it modifies are globals by their own numbers.
#[derive(Drop)]
pub struct Method {
    pub name: Text,
    pub node: NodeNo,
    pub params: Items<FieldTy>,
    pub result: Ty,
    pub requires_: Items<Noted>,
    pub modifies: Items<u32>,
    pub ensures_: Items<Noted>,
    pub locals: Items<Ty>,
    pub body: Items<Code>,
}
