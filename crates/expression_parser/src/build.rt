//! Expressions of their parts. Where parts come as results, the first that stopped is the answer: so none is dropped
//! here.

ghost use Rattle.std.specs.Prelude.{◌≡◌, [], ◌∷◌, List, map, IfOk, IfErr, IsOk, MatchResult};
ghost use Rattle.std.specs.Option.{option_map};
ghost use Rattle.slang_tree.specs.declared.expression.Name.{Name as TheName};
ghost use Rattle.slang_tree.specs.declared.expression.Expr.{Expr as TheExpr};
ghost use Rattle.slang_tree.specs.TypeTree.{type_tree};
ghost use Rattle.slang_tree.specs.ExprTree as e;
ghost use Rattle.slang_tree.specs.ExprTree.{expr_tree, place_of, exprs_of};
ghost use Rattle.slang_grammar.specs.Expressions.{prefix_tree};
ghost use Rattle.slang_machine.specs.States.{whole as whole_of, dotted as dotted_at};
ghost use Rattle.expression_parser.specs.declared.build.BracketForm.{BracketForm as TheBracketForm};
ghost use Rattle.token_cursor.specs.Gives.{IfRefused};
ghost use Rattle.expression_parser.specs.Forms.{operand_form, form_tree, range_form, applied_tree, quantified_tree};

use owned_results::{all_three, both};
use slang_grammar::Prefix;
use slang_tree::{Expr, Name, Operator, Place, TypeName};
use slang_values::Quantifier;
use sqlite_items::{Boxed, Items};
use std::alloc::{AllocError, Global};
use token_cursor::Stop;

/// An operand that is whole, or a field of one, which may be the indices of a range.
#[derive(Drop)]
pub enum OperandForm {
    Whole(Expr),
    Dotted(Expr, Name),
}

/// What a quantifier ranges over.
#[derive(Drop)]
pub enum RangeForm {
    Between(Expr, Expr),
    IndicesOf(Expr),
}

/// What stands in round brackets behind a head.
#[derive(Drop)]
pub enum BracketForm {
    Arguments(Items<Expr>),
    /// An index, and the element that comes there.
    Update(Expr, Expr),
}

/// The place of an expression.
fn place_of(expr: &Expr) -> Place
    ensures { result ≡ place_of (expr_tree expr.now) }
{
    match expr {
        Expr::Number(place, _) | Expr::True(place) | Expr::False(place) => *place,
        Expr::Name(name) => name.place,
        Expr::Res(place, _) | Expr::In(place, _) | Expr::Old(place, _) => *place,
        Expr::Minus(place, _) | Expr::Not(place, _) | Expr::Binary(place, _, _, _) => *place,
        Expr::Apply(place, _, _) | Expr::Update(place, _, _, _) | Expr::Field(place, _, _) =>
            *place,
        Expr::Sequence(place, _, _) | Expr::Quantified(place, _, _, _, _, _) => *place,
        Expr::QuantifiedIndices(place, _, _, _, _) => *place,
    }
}

/// A head, with its place.
fn placed(alloc: Global, head: Expr) -> Result<(Place, Boxed<Expr>), AllocError>
    ensures { IfOk result (λ p. (p.0 ≡ place_of (expr_tree head)) × (p.1 ≡ head)) }
{
    let place = place_of(&head);
    Ok((place, Boxed::new(alloc, head)?))
}

/// The expression that an operand is.
pub fn whole(alloc: Global, operand: OperandForm) -> Result<Expr, AllocError>
    ensures { IfOk result (λ expr. expr_tree expr ≡ form_tree operand) }
{
    match operand {
        OperandForm::Whole(expr) => Ok(expr),
        OperandForm::Dotted(head, name) => {
            let ((place, head), name) = both(placed(alloc, head), Ok(name))?;
            Ok(Expr::Field(place, head, name))
        }
    }
}

/// A field of an operand.
pub fn dotted(
    alloc: Global,
    operand: OperandForm,
    name: Result<Name, Stop>,
) -> Result<OperandForm, Stop>
    ensures made { IfOk result (λ made. (written : TheName) × (name ≡ Ok written) × (operand_form made ≡ dotted_at (form_tree operand) written)) }
    ensures refused { IfErr result (λ stop. IfRefused stop (λ due. name ≡ Err stop)) }
{
    let (operand, name) = both(Ok(operand), name)?;
    let (head, name) = both(whole(alloc, operand), Ok(name))?;
    Ok(OperandForm::Dotted(head, name))
}

/// An operand with its prefix at this place.
pub fn prefixed(
    alloc: Global,
    prefix: Prefix,
    place: Place,
    operand: OperandForm,
) -> Result<OperandForm, AllocError>
    ensures { IfOk result (λ made. operand_form made ≡ whole_of (prefix_tree prefix place (form_tree operand))) }
{
    let operand = whole(alloc, operand)?;
    let operand = Boxed::new(alloc, operand)?;
    Ok(OperandForm::Whole(match prefix {
        Prefix::Not => Expr::Not(place, operand),
        Prefix::Minus => Expr::Minus(place, operand),
    }))
}

/// An operator between its operands.
pub fn binary(
    alloc: Global,
    operator: Operator,
    left: Expr,
    right: Result<Expr, Stop>,
) -> Result<Expr, Stop>
    ensures made { IfOk result (λ made. (other : TheExpr) × (right ≡ Ok other) × (expr_tree made ≡ e.binary (place_of (expr_tree left)) operator (expr_tree left) (expr_tree other))) }
    ensures refused { IfErr result (λ stop. IfRefused stop (λ due. right ≡ Err stop)) }
{
    let (left, right) = both(Ok(left), right)?;
    let ((place, left), right) = both(placed(alloc, left), Boxed::new(alloc, right))?;
    Ok(Expr::Binary(place, operator, left, right))
}

/// A head with what stands in brackets behind it.
pub fn applied(
    alloc: Global,
    head: OperandForm,
    inside: Result<BracketForm, Stop>,
) -> Result<OperandForm, Stop>
    ensures made { IfOk result (λ made. (read : TheBracketForm) × (inside ≡ Ok read) × (operand_form made ≡ whole_of (applied_tree (form_tree head) read))) }
    ensures refused { IfErr result (λ stop. IfRefused stop (λ due. inside ≡ Err stop)) }
{
    let (head, inside) = both(Ok(head), inside)?;
    let (head, inside) = both(whole(alloc, head), Ok(inside))?;
    match inside {
        BracketForm::Arguments(arguments) => Ok(application(alloc, head, arguments)?),
        BracketForm::Update(index, element) => Ok(updated(alloc, head, index, element)?),
    }
}

fn application(alloc: Global, head: Expr, arguments: Items<Expr>) -> Result<OperandForm, AllocError>
    ensures { IfOk result (λ made. operand_form made ≡ whole_of (applied_tree (expr_tree head) (BracketForm.Arguments arguments))) }
{
    let ((place, head), arguments) = both(placed(alloc, head), Ok(arguments))?;
    Ok(OperandForm::Whole(Expr::Apply(place, head, arguments)))
}

fn updated(alloc: Global, head: Expr, index: Expr, element: Expr) -> Result<OperandForm, AllocError>
    ensures { IfOk result (λ made. operand_form made ≡ whole_of (applied_tree (expr_tree head) (BracketForm.Update index element))) }
{
    let ((place, head), index, element) = all_three(
        placed(alloc, head),
        Boxed::new(alloc, index),
        Boxed::new(alloc, element),
    )?;
    Ok(OperandForm::Whole(Expr::Update(place, head, index, element)))
}

/// An index, and the element that comes there.
pub fn update(index: Expr, element: Result<Expr, Stop>) -> Result<BracketForm, Stop>
    ensures made { IfOk result (λ made. (read : TheExpr) × (element ≡ Ok read) × (made ≡ BracketForm.Update index read)) }
    ensures refused { IfErr result (λ stop. IfRefused stop (λ due. element ≡ Err stop)) }
{
    let (index, element) = both(Ok(index), element)?;
    Ok(BracketForm::Update(index, element))
}

/// A range.
pub fn between(low: Expr, high: Result<Expr, Stop>) -> Result<RangeForm, Stop>
    ensures made { IfOk result (λ made. (read : TheExpr) × (high ≡ Ok read) × (made ≡ RangeForm.Between low read)) }
    ensures refused { IfErr result (λ stop. IfRefused stop (λ due. high ≡ Err stop)) }
{
    let (low, high) = both(Ok(low), high)?;
    Ok(RangeForm::Between(low, high))
}

/// A sequence of its elements.
pub fn sequence(
    place: Place,
    ty: Option<TypeName>,
    elements: Result<Items<Expr>, Stop>,
) -> Result<Expr, Stop>
    ensures made { IfOk result (λ made. (read : List TheExpr) × (elements ≡ Ok read) × (expr_tree made ≡ e.sequence place (option_map type_tree ty) (exprs_of (map expr_tree read)))) }
    ensures refused { IfErr result (λ stop. IfRefused stop (λ due. elements ≡ Err stop)) }
{
    let (ty, elements) = both(Ok(ty), elements)?;
    Ok(Expr::Sequence(place, ty, elements))
}

/// A quantifier over its range and its body.
pub fn quantify(
    alloc: Global,
    by: Quantifier,
    place: Place,
    range: RangeForm,
    variable: Name,
    body: Result<Expr, Stop>,
) -> Result<Expr, Stop>
    ensures made { IfOk result (λ made. (read : TheExpr) × (body ≡ Ok read) × (expr_tree made ≡ quantified_tree by place (range_form range) variable (expr_tree read))) }
    ensures refused { IfErr result (λ stop. IfRefused stop (λ due. body ≡ Err stop)) }
{
    let (range, variable, body) = all_three(Ok(range), Ok(variable), body)?;
    let (range, variable, body) = all_three(Ok(range), Ok(variable), Boxed::new(alloc, body))?;
    match range {
        RangeForm::Between(low, high) => {
            let (low, high, (variable, body)) = all_three(
                Boxed::new(alloc, low),
                Boxed::new(alloc, high),
                Ok((variable, body)),
            )?;
            Ok(Expr::Quantified(place, by, low, high, variable, body))
        }
        RangeForm::IndicesOf(head) => {
            let (head, (variable, body)) = both(Boxed::new(alloc, head), Ok((variable, body)))?;
            Ok(Expr::QuantifiedIndices(place, by, head, variable, body))
        }
    }
}

/// Arguments that were read up to their end.
pub fn arguments_of(list: Items<Expr>, end: Result<(), Stop>) -> Result<BracketForm, Stop>
    ensures { MatchResult result (λ made. (made ≡ BracketForm.Arguments list) × IsOk end) (λ stop. end ≡ Err stop) }
{
    match end {
        Ok(()) => Ok(BracketForm::Arguments(list)),
        Err(stop) => Err(stop),
    }
}

/// A list with one member.
pub fn one<T: Drop>(alloc: Global, member: T) -> Result<Items<T>, AllocError>
    ensures { IfOk result (λ list. list ≡ member ∷ []) }
{
    let mut list = Items::new(alloc);
    list.push(member)?;
    Ok(list)
}

/// A part, beside what comes behind it, where that was read too.
pub fn beside<A: Drop, B: Drop>(part: A, next: Result<B, Stop>) -> Result<(A, B), Stop>
    ensures { MatchResult result (λ pair. (pair.0 ≡ part) × (next ≡ Ok pair.1)) (λ stop. next ≡ Err stop) }
{
    match next {
        Ok(next) => Ok((part, next)),
        Err(stop) => Err(stop),
    }
}
