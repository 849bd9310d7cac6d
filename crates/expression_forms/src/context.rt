ghost use Rattle.std.specs.Prelude.{◌≡◌};
ghost use Rattle.type_rules.specs.Expressions.{is_program};
ghost use Rattle.type_rules.specs.Expressions as rule;
ghost use Rattle.type_faults.specs.FirstFault.{with_first};
ghost use Rattle.expression_forms.specs.Context.{context_seen};

use slang_tree::{Fault, Place};
use text_types::TextType;
use type_faults::FirstFault;

/// Where an expression stands: in the program, or in a claim. Some claims may speak of more than others.
#[derive(Clone, Copy, Debug)]
pub enum Context {
    Program,
    /// Requires, an invariant or an `assert`.
    Claim,
    /// Ensures of a method with a result of this type.
    Ensures(Option<TextType>),
    /// A proof.
    Proof,
}

impl Context {
    pub fn is_program(self) -> bool
        ensures { result ≡ is_program (context_seen self) }
    {
        matches!(self, Context::Program)
    }

    /// Tells of a word of claims, where there may be none.
    pub fn tell_word(self, own: &mut FirstFault, place: Place)
        ensures { own.new.found ≡ with_first own.old.found (rule.word_faults (context_seen self) place) }
    {
        own.tell_unless(!self.is_program(), Fault { code: 15, place });
    }
}
