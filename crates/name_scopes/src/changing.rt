ghost use Rattle.std.specs.Prelude.{◌≡◌, ◌<◌, ◌^◌, ◌+◌, ◌++◌, ◌∷◌, [], length, take, OnOk};
ghost use Rattle.std.specs.Result.{OkIff};
ghost use Rattle.std.specs.Option.{option_map};
ghost use Rattle.type_rules.specs.Meanings as rule;
ghost use Rattle.type_rules.specs.Meanings.{Scope};
ghost use Rattle.type_rules.specs.Statements.{texts};
ghost use Rattle.text_types.specs.TextType.{text_value};
ghost use Rattle.name_scopes.specs.Fits.{Fits, after_quantifier, after_block};

use crate::NoMemory;
use crate::covering::covered_within;
use crate::meaning::Meaning;
use crate::scope::NameScope;
use slang_tree::Name;
use std::alloc::{AllocError, Global};
use std::mem::replace;
use text_types::TextType;

/// One more, where there is such a number.
fn next(count: u32) -> Result<u32, NoMemory>
    ensures { OkIff result (count + 1 < 2 ^ 32) (count + 1) }
{
    count.checked_add(1).ok_or(AllocError)
}

impl NameScope {
    /// The variable of a quantifier comes into scope.
    pub fn bind(&mut self, alloc: Global, name: &str) -> Result<(), NoMemory>
        ensures fits { OnOk result ((scope : Scope) → Fits self.old scope → Fits self.new (rule.with_bound scope name.now)) }
        ensures back { OnOk result (after_quantifier (length self.old.names) self.new ≡ self.old) }
    {
        let depth = next(self.depth)?;
        self.names.add(alloc, name, Meaning::Bound(self.depth))?;
        self.depth = depth;
        Ok(())
    }

    /// It goes out of scope, where there were so many names before.
    pub fn unbind(&mut self, names: usize)
        ensures { self.new ≡ after_quantifier names self.old }
    {
        self.names.leave(names);
        self.depth = self.depth.saturating_sub(1);
    }

    /// The variable of a block of a proof comes into scope.
    pub fn open_block(&mut self, alloc: Global, name: &str, label: u32) -> Result<(), NoMemory>
        ensures fits { OnOk result ((scope : Scope) → Fits self.old scope → Fits self.new (rule.with_name scope name.now (rule.block_variable label))) }
        ensures back { OnOk result (record self.new { names = take (length self.old.names) self.new.names } ≡ self.old) }
    {
        self.names.add(alloc, name, Meaning::Block(label))
    }

    /// It goes out of scope, where there were so many names before.
    pub fn close_block(&mut self, names: usize)
        ensures { self.new ≡ record self.old { names = take names self.old.names } }
    {
        self.names.leave(names);
    }

    /// A local of the method comes into scope. It may be changed where it is a `var`.
    pub fn declare(
        &mut self,
        alloc: Global,
        name: &str,
        changes: bool,
        ty: Option<TextType>,
    ) -> Result<(), NoMemory>
        ensures fits { OnOk result ((scope : Scope) → Fits self.old scope → Fits self.new (rule.with_local scope name.now changes (option_map text_value ty))) }
        ensures behind { OnOk result (after_block (length self.old.names) (length self.old.covered) self.new ≡ record self.old { locals = self.old.locals + 1 }) }
    {
        let locals = next(self.locals)?;
        let meaning = Meaning::Local {
            number: self.locals,
            changes,
            ty,
        };
        self.names.add(alloc, name, meaning)?;
        self.covered.add(alloc, name, ())?;
        self.locals = locals;
        Ok(())
    }

    /// The locals of a block go out of scope, where there were so many names, and names of variables that may be changed, before.
    pub fn leave(&mut self, names: usize, covered: usize)
        ensures { self.new ≡ after_block names covered self.old }
    {
        self.names.leave(names);
        self.covered.leave(covered);
    }

    /// A loop begins that changes only these of what stands outside.
    pub fn enter_loop(&mut self, alloc: Global, modifies: &[Name]) -> Result<(), NoMemory>
        ensures fits { OnOk result ((scope : Scope) → Fits self.old scope → Fits self.new (rule.within scope (texts modifies.now))) }
        ensures names { OnOk result (self.new.names ≡ self.old.names) }
        ensures outside { OnOk result (self.new.outside ≡ self.old.outside ++ self.old.covered ∷ []) }
    {
        let inner = covered_within(alloc, &self.covered, modifies)?;
        let outer = replace(&mut self.covered, inner);
        self.outside.push(outer)
    }
}
