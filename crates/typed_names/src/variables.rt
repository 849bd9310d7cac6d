ghost use Rattle.std.specs.Prelude.{◌≡◌, ◌<◌, ◌^◌};
ghost use Rattle.std.specs.Result.{OkIff};
ghost use Rattle.std.specs.Option.{option_and_then, option_map};
ghost use Rattle.type_rules.specs.Meanings.{Scope, meaning_of};
ghost use Rattle.name_scopes.specs.Meanings.{meant};
ghost use Rattle.name_scopes.specs.Fits.{Fits};
ghost use Rattle.typed_names.specs.Variables.{kind_seen, number_in, variable_in};

use crate::NoMemory;
use name_scopes::{Meaning, NameScope};
use std::alloc::AllocError;

/// A variable of a method by its kind. An entry value is what a global was when the method began.
#[derive(Clone, Copy, Debug)]
pub enum VariableKind {
    Local(u32),
    Global(u32),
    Entry(u32),
    Result,
}

/// How many locals a method has, and how many globals there are. They tell the numbers of the method's variables.
#[derive(Clone, Copy, Debug)]
pub struct Numbering {
    pub locals: u32,
    pub globals: u32,
}

impl Numbering {
    /// The number of a variable, if it fits. Locals come first, then globals, then their entry values, and last the result.
    pub fn number_of(self, variable: VariableKind) -> Result<u32, NoMemory>
        ensures { OkIff result (number_in self (kind_seen variable) < 2 ^ 32) (number_in self (kind_seen variable)) }
    {
        let locals = self.locals as u64;
        let globals = self.globals as u64;
        let number = match variable {
            VariableKind::Local(n) => n as u64,
            VariableKind::Global(n) => locals + n as u64,
            VariableKind::Entry(n) => locals + globals + n as u64,
            VariableKind::Result => locals + globals + globals,
        };
        match u32::try_from(number) {
            Ok(number) => Ok(number),
            Err(_) => Err(AllocError),
        }
    }
}

impl VariableKind {
    /// The variable that this is, if it is one.
    pub fn of(meaning: &Meaning) -> Option<VariableKind>
        ensures { option_map kind_seen result ≡ variable_in (meant meaning.now) }
    {
        match meaning {
            Meaning::Local { number, .. } => Some(VariableKind::Local(*number)),
            Meaning::Global { number, .. } => Some(VariableKind::Global(*number)),
            Meaning::Bound(_) | Meaning::Block(_) | Meaning::Record(_) | Meaning::Method(_) => None,
        }
    }
}

/// The variable that a name means, if it means one.
pub fn variable_named(scope: &NameScope, name: &str) -> Option<VariableKind>
    ensures { (at : Scope) → Fits scope.now at → option_map kind_seen result ≡ option_and_then variable_in (meaning_of at name.now) }
{
    match scope.meaning(name) {
        None => None,
        Some(meaning) => VariableKind::of(meaning),
    }
}
