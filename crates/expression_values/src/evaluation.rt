ghost use Rattle.slang_values.specs.Value.{Records};
ghost use Rattle.expression_values.specs.Environment.{values_in, expression_in, expressions_in};
ghost use Rattle.expression_values.specs.Answers.{AnswersValue, AnswersTruth, AnswersValues};

use crate::ending::EvalEnd;
use crate::environment::Env;
use crate::forms;
use crate::numbers::is_right_evaluated;
use lk_programs::{Expr, ExprShape};
use run_values::{Held, Value};
use sqlite_items::Items;
use std::alloc::Global;

/// The value of the expression, or where its evaluation first stops.
pub fn eval_expr<'e>(alloc: Global, expr: &Expr, env: &'e Env) -> Result<Held<'e>, EvalEnd>
    ensures { (records : Records) → AnswersValue records (values_in env.now) (expression_in env.now expr.now) result }
{
    held(alloc, expr, env)
}

/// The truth value of the expression, or where its evaluation first stops.
pub fn eval_truth(alloc: Global, expr: &Expr, env: &Env) -> Result<bool, EvalEnd>
    ensures { (records : Records) → AnswersTruth records (values_in env.now) (expression_in env.now expr.now) result }
{
    forms::truth(held(alloc, expr, env))
}

/// The values of the expressions, in order, or where their evaluation first stops.
pub fn eval_all(alloc: Global, exprs: &[Expr], env: &Env) -> Result<Items<Value>, EvalEnd>
    ensures { (records : Records) → AnswersValues records (values_in env.now) (expressions_in env.now exprs.now) result }
{
    values(alloc, exprs, env)
}

#[cycle(evaluation)]
fn held<'e>(alloc: Global, expr: &Expr, env: &'e Env) -> Result<Held<'e>, EvalEnd>
    ensures { (records : Records) → AnswersValue records (values_in env.now) (expression_in env.now expr.now) result }
{
    match expr.shape() {
        ExprShape::Literal(node, z) => forms::literal(node, z),
        ExprShape::Truth(node, b) => forms::truth_literal(node, b),
        ExprShape::Variable(node, n) => forms::variable(node, env.variable(n)),
        ExprShape::Unary(node, op, a) => forms::unary(node, op, held(alloc, a, env)),
        ExprShape::Binary(node, operator, a, b) => match held(alloc, a, env) {
            Err(end) => Err(end),
            Ok(left) => {
                if is_right_evaluated(operator, left.as_value().truth()) {
                    forms::binary(alloc, node, operator, left, held(alloc, b, env))
                } else {
                    forms::decided(node, operator, left)
                }
            }
        },
        ExprShape::Read(node, head, index) => {
            forms::read(node, held(alloc, head, env), held(alloc, index, env))
        }
        ExprShape::Update(node, head, index, element) => forms::update(
            alloc,
            node,
            held(alloc, head, env),
            held(alloc, index, env),
            held(alloc, element, env),
        ),
        ExprShape::Sequence(node, ty, elements) => {
            forms::sequence(alloc, node, ty, values(alloc, elements, env))
        }
        ExprShape::Record(node, number, fields) => {
            forms::record_by_fields(node, number, values(alloc, fields, env))
        }
    }
}

#[cycle(evaluation)]
fn values(alloc: Global, exprs: &[Expr], env: &Env) -> Result<Items<Value>, EvalEnd>
    ensures { (records : Records) → AnswersValues records (values_in env.now) (expressions_in env.now exprs.now) result }
{
    let mut values = Items::new(alloc);
    for expr in exprs {
        match forms::owned(alloc, held(alloc, expr, env)) {
            Err(end) => return Err(end),
            Ok(value) => values.push(value)?,
        }
    }
    Ok(values)
}
