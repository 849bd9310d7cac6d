ghost use Rattle.std.specs.Prelude.{◌≡◌};
ghost use Rattle.leg_rules.specs.LegNames.{callee_name, same_name};
ghost use Rattle.program_trees.specs.Variables.{same_variable};
ghost use Rattle.leg_items.specs.Names.{frame_name, kind_of, leg_name, variable_data};

use lk_programs::NodeNo;

/// A variable of a method by its kind.
#[derive(Clone, Copy)]
pub enum MethodVariable {
    Local(u32),
    Global(u32),
    /// What the global was when the method began.
    Entry(u32),
    Result,
}

/// A variable of a leg: one of the method that the leg is of, or one of the method of that number that is called at the node.
#[derive(Clone, Copy)]
pub enum Name {
    Own(MethodVariable),
    OfCall(NodeNo, u32, MethodVariable),
}

/// How the variables of a method are numbered.
#[derive(Clone, Copy)]
pub struct Scope {
    pub locals: usize,
    pub globals: usize,
}

/// Whose variables a claim names: those of the method that the leg is of, or of the method that is called at the node.
#[derive(Clone, Copy)]
pub enum Frame {
    Own(Scope),
    Call(NodeNo, u32, Scope),
}

impl Scope {
    /// The variable of that number.
    #[tactic(auto, using(crate::proofs::Numbers::number_lines))]
    pub fn variable(self, number: u32) -> MethodVariable
        ensures { variable_data result ≡ kind_of self number }
    {
        let at = number as usize;
        if at < self.locals {
            return MethodVariable::Local(number);
        }
        let at = at - self.locals;
        if at < self.globals {
            return MethodVariable::Global(at as u32);
        }
        let at = at - self.globals;
        if at < self.globals {
            return MethodVariable::Entry(at as u32);
        }
        MethodVariable::Result
    }
}

impl MethodVariable {
    pub fn same(self, other: MethodVariable) -> bool
        ensures { result ≡ same_variable (variable_data self) (variable_data other) }
    {
        match (self, other) {
            (MethodVariable::Local(m), MethodVariable::Local(n)) => m == n,
            (MethodVariable::Global(m), MethodVariable::Global(n)) => m == n,
            (MethodVariable::Entry(m), MethodVariable::Entry(n)) => m == n,
            (MethodVariable::Result, MethodVariable::Result) => true,
            _ => false,
        }
    }
}

impl Name {
    pub fn same(self, other: Name) -> bool
        ensures { result ≡ same_name (leg_name self) (leg_name other) }
    {
        match (self, other) {
            (Name::Own(x), Name::Own(y)) => x.same(y),
            (Name::OfCall(at, f, x), Name::OfCall(place, g, y)) => {
                at.0 == place.0 && (f == g && x.same(y))
            }
            _ => false,
        }
    }
}

impl Frame {
    /// The variable of that number.
    pub fn name(self, number: u32) -> Name
        ensures { leg_name result ≡ frame_name self number }
    {
        match self {
            Frame::Own(scope) => Name::Own(scope.variable(number)),
            Frame::Call(node, method, scope) => called(node, method, scope.variable(number)),
        }
    }
}

/// What a variable of the method that is called is on the leg: the globals are the caller's too.
fn called(node: NodeNo, method: u32, variable: MethodVariable) -> Name
    ensures { leg_name result ≡ callee_name node.0 method (variable_data variable) }
{
    match variable {
        MethodVariable::Global(_) => Name::Own(variable),
        _ => Name::OfCall(node, method, variable),
    }
}
