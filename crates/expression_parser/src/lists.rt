ghost use Rattle.std.specs.Prelude.{◌≡◌, ◌<◌, length, IfOk, IfErr, OnOk};
ghost use Rattle.std.specs.Option.{option_map};
ghost use Rattle.slang_tree.specs.TypeTree.{TypeTree, type_tree};
ghost use Rattle.slang_machine.specs.Open.{AroundType};
ghost use Rattle.slang_machine.specs.States.{State};
ghost use Rattle.token_cursor.specs.Gives.{ahead, IfRefused, Moves, Refuses};
ghost use Rattle.token_cursor.specs.Types.{OpensList, optional_state};

use slang_lexer::TokenKind;
use slang_tree::TypeName;
use std::alloc::Global;
use token_cursor::{Cursor, Stop, element_type, kept};

/// The type of the elements of a sequence, which may be left out, up to the bracket that opens these.
pub fn sequence_head(alloc: Global, tokens: &mut Cursor<'_, '_>) -> Result<Option<TypeName>, Stop>
    ensures reads { IfOk result (λ ty. (from : State) (inner : AroundType) (typed : TypeTree → State) (bare : State) (begun : TypeTree → State) → OpensList from inner typed bare begun → Moves tokens.old from tokens.new (optional_state bare begun (option_map type_tree ty))) }
    ensures shorter { OnOk result (length (ahead tokens.new) < length (ahead tokens.old)) }
    ensures refused { IfErr result (λ stop. IfRefused stop (λ due. (from : State) (inner : AroundType) (typed : TypeTree → State) (bare : State) (begun : TypeTree → State) → OpensList from inner typed bare begun → Refuses tokens.old from tokens.new due)) }
{
    let ty = element_type(alloc, tokens)?;
    kept(ty, tokens.expect(TokenKind::LeftParen))
}
