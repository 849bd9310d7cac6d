ghost use Rattle.std.specs.Prelude.{◌≡◌, ◌<◌, List, map, length, IfOk, IfErr, OnOk};
ghost use Rattle.slang_tree.specs.declared.expression.Name.{Name as TheName};
ghost use Rattle.slang_tree.specs.declared.expression.TypeName.{TypeName as TheType};
ghost use Rattle.slang_tree.specs.declared.declaration.Param.{Param as TheParam};
ghost use Rattle.slang_tree.specs.TypeTree.{type_tree};
ghost use Rattle.slang_tree.specs.DeclTree.{TypedName, DeclTree, param_tree, method_decl_tree};
ghost use Rattle.slang_grammar.specs.Declarations.{bare_method};
ghost use Rattle.slang_machine.specs.Open.{Draft};
ghost use Rattle.slang_machine.specs.States.{naming, params_due, result_colon, equals_due, part_or_end};
ghost use Rattle.slang_machine.specs.Statements.{end_method};
ghost use Rattle.token_cursor.specs.Gives.{ahead, IfRefused, Moves, Refuses};
ghost use Rattle.method_parser.specs.Bodies.{draft_of};

use crate::bodies::body;
use crate::params::{colon_type, params};
use expression_parser::beside;
use owned_results::both;
use slang_lexer::TokenKind;
use slang_tree::{MethodDecl, Name, Param, TypeName};
use sqlite_items::Items;
use std::alloc::Global;
use token_cursor::{Cursor, Stop, kept, name};

/// A method with nothing in it.
fn bare_method(
    alloc: Global,
    name: Name,
    signature: Result<(Items<Param>, TypeName), Stop>,
) -> Result<MethodDecl, Stop>
    ensures made { IfOk result (λ made. (read : List TheParam × TheType) × (signature ≡ Ok read) × (method_decl_tree made ≡ bare_method name (map param_tree read.0) (type_tree read.1))) }
    ensures refused { IfErr result (λ stop. IfRefused stop (λ due. signature ≡ Err stop)) }
{
    let (name, signature) = both(Ok(name), signature)?;
    let (params, ty) = signature;
    Ok(MethodDecl {
        name,
        params,
        result: ty,
        requires_: Items::new(alloc),
        modifies: Items::new(alloc),
        ensures_: Items::new(alloc),
        body: Items::new(alloc),
        returned: None,
    })
}

/// The sign behind the type of a method, and the brace that opens the body.
fn body_begin(tokens: &mut Cursor<'_, '_>) -> Result<(), Stop>
    ensures reads { OnOk result ((draft : Draft) → Moves tokens.old (equals_due draft) tokens.new (part_or_end 0 draft)) }
    ensures shorter { OnOk result (length (ahead tokens.new) < length (ahead tokens.old)) }
    ensures refused { IfErr result (λ stop. IfRefused stop (λ due. (draft : Draft) → Refuses tokens.old (equals_due draft) tokens.new due)) }
{
    tokens.expect(TokenKind::Equals)?;
    tokens.expect(TokenKind::LeftBrace)
}

/// The result type of a method, up to the brace that opens the body.
fn result_type(alloc: Global, tokens: &mut Cursor<'_, '_>) -> Result<TypeName, Stop>
    ensures reads { IfOk result (λ ty. (written : TheName) (params : List TypedName) (done : List DeclTree) →
        Moves tokens.old (result_colon written params done) tokens.new (part_or_end 0 (record { done = done; method = bare_method written params (type_tree ty) }))) }
    ensures shorter { OnOk result (length (ahead tokens.new) < length (ahead tokens.old)) }
    ensures refused { IfErr result (λ stop. IfRefused stop (λ due. (written : TheName) (params : List TypedName) (done : List DeclTree) →
        Refuses tokens.old (result_colon written params done) tokens.new due)) }
{
    let ty = colon_type(alloc, tokens)?;
    kept(ty, body_begin(tokens))
}

/// The parameters and the result type of a method, up to the brace that opens the body.
fn signature(alloc: Global, tokens: &mut Cursor<'_, '_>) -> Result<(Items<Param>, TypeName), Stop>
    ensures reads { IfOk result (λ read. (written : TheName) (done : List DeclTree) →
        Moves tokens.old (params_due written done) tokens.new (part_or_end 0 (record { done = done; method = bare_method written (map param_tree read.0) (type_tree read.1) }))) }
    ensures shorter { OnOk result (length (ahead tokens.new) < length (ahead tokens.old)) }
    ensures refused { IfErr result (λ stop. IfRefused stop (λ due. (written : TheName) (done : List DeclTree) → Refuses tokens.old (params_due written done) tokens.new due)) }
{
    let params = params(alloc, tokens)?;
    beside(params, result_type(alloc, tokens))
}

/// The head of a method, from behind its word up to the brace that opens the body.
fn head(alloc: Global, tokens: &mut Cursor<'_, '_>) -> Result<MethodDecl, Stop>
    ensures reads { IfOk result (λ method. (done : List DeclTree) → Moves tokens.old (naming done) tokens.new (part_or_end 0 (draft_of done method))) }
    ensures shorter { OnOk result (length (ahead tokens.new) < length (ahead tokens.old)) }
    ensures refused { IfErr result (λ stop. IfRefused stop (λ due. (done : List DeclTree) → Refuses tokens.old (naming done) tokens.new due)) }
{
    let name = name(alloc, tokens)?;
    bare_method(alloc, name, signature(alloc, tokens))
}

/// A method, from behind its word on.
pub fn method(alloc: Global, tokens: &mut Cursor<'_, '_>) -> Result<MethodDecl, Stop>
    ensures reads { IfOk result (λ method. (done : List DeclTree) → Moves tokens.old (naming done) tokens.new (end_method (draft_of done method))) }
    ensures shorter { OnOk result (length (ahead tokens.new) < length (ahead tokens.old)) }
    ensures refused { IfErr result (λ stop. IfRefused stop (λ due. (done : List DeclTree) → Refuses tokens.old (naming done) tokens.new due)) }
{
    let mut method = head(alloc, tokens)?;
    let end = body(alloc, &mut method, tokens);
    kept(method, end)
}
