use crate::expression::{Expr, Name, TypeName};
use crate::place::Place;
use crate::statement::Stmt;
use crate::text::Text;
use sqlite_items::Items;

/// A file by its name, with its tree.
#[derive(Drop)]
pub struct NamedFile {
    pub name: Text,
    pub tree: File,
}

/// A whole text: its declarations in order.
#[derive(Drop)]
pub struct File {
    pub items: Items<Decl>,
}

/// One declaration.
#[derive(Drop)]
pub enum Decl {
    /// `import path`, the names of which are parted by dots. The place is that of the word.
    Import { place: Place, path: Items<Name> },
    Global(GlobalDecl),
    Record(RecordDecl),
    Method(MethodDecl),
}

/// `val name: ty = init`, which is fixed, or `var name: ty = init`. The type may be left out. The place is that of the
/// word.
#[derive(Drop)]
pub struct GlobalDecl {
    pub place: Place,
    pub fixed: bool,
    pub name: Name,
    pub ty: Option<TypeName>,
    pub init: Const,
}

/// A constant. The place is that of the first token, where this is no name.
#[derive(Drop)]
pub enum Const {
    Number(Place, i128),
    /// `-` in front of a number, which has the second place.
    Minus(Place, Place, i128),
    True(Place),
    False(Place),
    /// `ISZ[type](elements)`, or `ISZ(elements)`.
    Sequence(Place, Option<TypeName>, Items<Const>),
    /// `name(fields)`.
    Record(Name, Items<Const>),
}

/// `@datatype class name(fields)`. The place is that of the `@`.
#[derive(Drop)]
pub struct RecordDecl {
    pub place: Place,
    pub name: Name,
    pub fields: Items<FieldDecl>,
}

/// `name: ty`. A `val` in front of it leaves nothing in the tree.
#[derive(Drop)]
pub struct FieldDecl {
    pub name: Name,
    pub ty: TypeName,
}

/// `def name(params): result = { Contract(Requires(requires), Modifies(modifies), Ensures(ensures)) body returned }`.
/// A list that is left out has no members.
#[derive(Drop)]
pub struct MethodDecl {
    pub name: Name,
    pub params: Items<Param>,
    pub result: TypeName,
    pub requires_: Items<Expr>,
    pub modifies: Items<Name>,
    pub ensures_: Items<Expr>,
    pub body: Items<Stmt>,
    pub returned: Option<Return>,
}

/// `name: ty`.
#[derive(Drop)]
pub struct Param {
    pub name: Name,
    pub ty: TypeName,
}

/// `return value`. The place is that of the word.
#[derive(Drop)]
pub struct Return {
    pub place: Place,
    pub value: Expr,
}
