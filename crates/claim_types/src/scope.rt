ghost use Rattle.std.specs.Prelude.{◌≡◌, nat_eq};
ghost use Rattle.std.specs.Option.{option_map};
ghost use Rattle.std.specs.Set.{is_member};
ghost use Rattle.program_trees.specs.Claims.{let_symbol, old_variable, variable};
ghost use Rattle.claim_types.specs.Views.{scope_names, told};

use crate::view::TypeView;
use lk_claims::Ty;

/// What a claim may name: the variables, and in a proof their old values and the symbols of the blocks around.
#[derive(Clone, Copy)]
pub struct Scope<'a> {
    pub vars: &'a [Ty],
    /// In a proof, the labels of the blocks around that have a symbol.
    pub labels: Option<&'a [u32]>,
}

fn is_among(labels: &[u32], label: u32) -> bool
    ensures { result ≡ is_member nat_eq labels.now label }
{
    labels.contains(&label)
}

impl<'a> Scope<'a> {
    /// The type of a variable.
    pub fn variable(self, number: u32) -> Option<TypeView<'a>>
        ensures { told result ≡ scope_names self.entry (variable number) }
    {
        match self.vars.get(number as usize) {
            Some(ty) => Some(TypeView::new(ty)),
            None => None,
        }
    }

    /// The type of what a variable was.
    pub fn old_variable(self, number: u32) -> Option<TypeView<'a>>
        ensures { told result ≡ scope_names self.entry (old_variable number) }
    {
        match self.labels {
            Some(_) => self.variable(number),
            None => None,
        }
    }

    /// The type of the symbol of a block.
    pub fn let_symbol(self, label: u32) -> Option<TypeView<'a>>
        ensures { told result ≡ scope_names self.entry (let_symbol label) }
    {
        match self.labels {
            Some(labels) => {
                if is_among(labels, label) {
                    Some(TypeView::Number)
                } else {
                    None
                }
            }
            None => None,
        }
    }
}
