use crate::expression::{Expr, Name, TypeName};
use crate::place::Place;
use sqlite_items::Items;

/// A statement. The place is that of its first token, where this is no name.
#[derive(Drop)]
pub enum Stmt {
    /// `val name: ty = value`, where the type may be left out.
    Val {
        place: Place,
        name: Name,
        ty: Option<TypeName>,
        value: Expr,
    },
    /// `var name: ty = value`, where the type may be left out.
    Var {
        place: Place,
        name: Name,
        ty: Option<TypeName>,
        value: Expr,
    },
    /// `name = value`.
    Assign {
        name: Name,
        value: Expr,
    },
    /// `name(arguments)`.
    Call {
        name: Name,
        arguments: Items<Expr>,
    },
    /// `if (test) { then } else { otherwise }`, where the last part may be left out. An `if` right behind `else` is the
    /// one statement of that part.
    If {
        place: Place,
        test: Expr,
        then: Items<Stmt>,
        otherwise: Option<Items<Stmt>>,
    },
    /// `while (test) { Invariant(Modifies(modifies), claims) body }`.
    While {
        place: Place,
        test: Expr,
        modifies: Items<Name>,
        claims: Items<Expr>,
        body: Items<Stmt>,
    },
    /// `assert(claim)`.
    Assert {
        place: Place,
        claim: Expr,
    },
    /// `Deduce(steps)`.
    Deduce {
        place: Place,
        steps: Items<Step>,
    },
}

/// The label of a step or of an assumption.
#[derive(Clone, Copy, Debug, PartialEq, Eq)]
pub struct Label {
    pub place: Place,
    pub number: u32,
}

/// A step of a proof.
#[derive(Drop)]
pub enum Step {
    /// `label (claim) by rule(cites)`, where the last part may be left out.
    Line {
        label: Label,
        claim: Expr,
        rule: Name,
        cites: Items<Label>,
    },
    /// `label SubProof(assumed Assume(assumption), steps)`.
    Sub {
        label: Label,
        assumed: Label,
        assumption: Expr,
        steps: Items<Step>,
    },
    /// `label Let((name: Z) => SubProof(assumed Assume(assumption), steps))`.
    Let {
        label: Label,
        name: Name,
        assumed: Label,
        assumption: Expr,
        steps: Items<Step>,
    },
}
