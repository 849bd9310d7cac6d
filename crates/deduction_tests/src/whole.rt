//! Whole proofs: which labels are visible, where symbols may stand, and which refused step is the first.

use crate::claims::{Claim, K_POSITIVE, K_WITHIN, P, P_OR_K_POSITIVE, Q, Q_AND_P};
use crate::rules::{ALGEBRA, AND_I, AUTO, OR_I1, PREMISE};
use crate::steps::{Line, Row};
use deduction::BadStep;

/// The facts, the steps, and where they are refused and why.
#[derive(Clone, Copy)]
pub struct Proof(
    pub &'static [Claim],
    pub &'static [Row],
    pub Option<(u32, BadStep)>,
);

pub static PROOFS: [Proof; 16] = [
    Proof(&[], &[], None),
    // a step in a block that has ended, its assumption, a later step, the step itself
    Proof(
        &[Q],
        &[
            Row::Block(1, 2, P, &[Line(3, Q, PREMISE, &[])]),
            Row::One(Line(4, Q, ALGEBRA, &[3])),
        ],
        Some((4, BadStep::Cite(3))),
    ),
    Proof(
        &[Q],
        &[
            Row::Block(1, 2, P, &[Line(3, Q, PREMISE, &[])]),
            Row::One(Line(4, P, ALGEBRA, &[2])),
        ],
        Some((4, BadStep::Cite(2))),
    ),
    Proof(
        &[P],
        &[
            Row::One(Line(1, P, ALGEBRA, &[2])),
            Row::One(Line(2, P, PREMISE, &[])),
        ],
        Some((1, BadStep::Cite(2))),
    ),
    Proof(
        &[P],
        &[Row::One(Line(1, P, ALGEBRA, &[1]))],
        Some((1, BadStep::Cite(1))),
    ),
    // inside a block: the steps before it, its assumption, its own earlier steps
    Proof(
        &[Q],
        &[
            Row::One(Line(1, Q, PREMISE, &[])),
            Row::Block(
                2,
                3,
                P,
                &[
                    Line(4, Q_AND_P, AND_I, &[1, 3]),
                    Line(5, Q_AND_P, ALGEBRA, &[4]),
                ],
            ),
        ],
        None,
    ),
    // what automation takes as facts: an assumption inside its block and not behind it
    Proof(&[], &[Row::Block(1, 2, P, &[Line(3, P, AUTO, &[])])], None),
    Proof(
        &[],
        &[
            Row::Block(1, 2, P, &[Line(3, P, AUTO, &[])]),
            Row::One(Line(4, P, AUTO, &[])),
        ],
        Some((4, BadStep::NotClosed)),
    ),
    // the symbol of a Let in a fact, in an earlier claim, in an earlier block, and in no claim of one
    Proof(
        &[K_WITHIN],
        &[Row::Let(1, 2, P, &[])],
        Some((1, BadStep::Symbol)),
    ),
    Proof(
        &[P],
        &[
            Row::One(Line(1, P, PREMISE, &[])),
            Row::One(Line(2, P_OR_K_POSITIVE, OR_I1, &[1])),
            Row::Let(3, 4, P, &[]),
        ],
        Some((3, BadStep::Symbol)),
    ),
    Proof(
        &[],
        &[Row::Let(1, 2, K_WITHIN, &[]), Row::Let(3, 4, K_WITHIN, &[])],
        Some((3, BadStep::Symbol)),
    ),
    Proof(
        &[],
        &[Row::Let(1, 2, P, &[]), Row::Let(3, 4, K_WITHIN, &[])],
        None,
    ),
    // the symbol of an ended block in an assumption
    Proof(
        &[],
        &[Row::Let(1, 2, P, &[]), Row::Block(3, 4, K_WITHIN, &[])],
        Some((4, BadStep::Symbol)),
    ),
    // the first of two refused steps, inside a block
    Proof(
        &[],
        &[Row::Block(
            1,
            2,
            P,
            &[Line(3, Q, PREMISE, &[]), Line(4, Q, ALGEBRA, &[9])],
        )],
        Some((3, BadStep::Shape)),
    ),
    // two labels that are not visible; a symbol that has ended in what is not closed
    Proof(
        &[],
        &[Row::One(Line(1, P, AND_I, &[8, 9]))],
        Some((1, BadStep::Cite(8))),
    ),
    Proof(
        &[],
        &[
            Row::Let(1, 2, P, &[]),
            Row::One(Line(3, K_POSITIVE, AUTO, &[])),
        ],
        Some((3, BadStep::Symbol)),
    ),
];
