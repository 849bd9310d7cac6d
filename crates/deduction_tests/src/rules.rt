//! Each rule accepted, and refused in each way, after facts and blocks that stand before.

use crate::claims::{
    ALL, ALL_UNTIL_K, Claim, K_CHOSEN, K_POSITIVE, K_POSITIVE_OR_P, K_WITHIN, K_WITHIN_K,
    N_FROM_ZERO, N_IS_NEXT, N_POSITIVE, N_WITHIN, NEXT_FROM_ZERO, NO, NOT_P, P, P_AND_Q, P_IS_Q,
    P_OR_K_POSITIVE, P_OR_Q, P_THEN_Q, Q, Q_AND_P, SOME,
};
use crate::steps::{Line, Row};
use deduction::BadStep;

pub const PREMISE: u8 = 0;

pub const AND_I: u8 = 1;

pub const AND_E1: u8 = 2;

pub const AND_E2: u8 = 3;

pub const OR_I1: u8 = 4;

const OR_I2: u8 = 5;

const OR_E: u8 = 6;

const IMPLY_I: u8 = 7;

const IMPLY_E: u8 = 8;

const NEG_I: u8 = 9;

const NEG_E: u8 = 10;

const BOTTOM_E: u8 = 11;

const PBC: u8 = 12;

const ALL_I: u8 = 13;

const ALL_E: u8 = 14;

const EXISTS_I: u8 = 15;

const EXISTS_E: u8 = 16;

pub const ALGEBRA: u8 = 17;

pub const AUTO: u8 = 18;

const SUBST_LEFT: u8 = 19;

const SUBST_RIGHT: u8 = 20;

/// The facts of all cases. Each is the claim of a step by `Premise` too, whose label is the number of the claim.
pub static FACTS: [Claim; 14] = [
    P,
    Q,
    P_AND_Q,
    P_OR_Q,
    P_THEN_Q,
    NOT_P,
    NO,
    N_WITHIN,
    N_POSITIVE,
    ALL,
    SOME,
    P_IS_Q,
    N_IS_NEXT,
    N_FROM_ZERO,
];

// What each block assumes, and what it shows. The label of a block is 100 and more.
const P_TO_NO: Row = Row::Block(100, 101, P, &[Line(102, NO, PREMISE, &[])]);

const Q_TO_NO: Row = Row::Block(110, 111, Q, &[Line(112, NO, PREMISE, &[])]);

const P_TO_Q: Row = Row::Block(120, 121, P, &[Line(122, Q, PREMISE, &[])]);

const NOT_P_TO_NO: Row = Row::Block(130, 131, NOT_P, &[Line(132, NO, PREMISE, &[])]);

const NOT_P_TO_P: Row = Row::Block(140, 141, NOT_P, &[Line(142, P, PREMISE, &[])]);

const P_ALONE: Row = Row::Block(150, 151, P, &[]);

const N_TO_POSITIVE: Row = Row::Block(160, 161, N_WITHIN, &[Line(162, N_POSITIVE, PREMISE, &[])]);

const SOME_TO_P: Row = Row::Block(170, 171, SOME, &[Line(172, P, PREMISE, &[])]);

// The same with a `Let` of k.
const LET_P_TO_NO: Row = Row::Let(200, 201, P, &[Line(202, NO, PREMISE, &[])]);

const LET_P_TO_Q: Row = Row::Let(200, 201, P, &[Line(202, Q, PREMISE, &[])]);

const LET_NOT_P_TO_NO: Row = Row::Let(200, 201, NOT_P, &[Line(202, NO, PREMISE, &[])]);

const K_TO_POSITIVE: Row = Row::Let(
    200,
    201,
    K_WITHIN,
    &[Line(202, K_POSITIVE, ALL_E, &[ALL, 201])],
);

const K_TO_P: Row = Row::Let(200, 201, K_WITHIN, &[Line(202, P, PREMISE, &[])]);

const CHOSEN_TO_POSITIVE: Row = Row::Let(
    200,
    201,
    K_CHOSEN,
    &[Line(202, K_POSITIVE, AND_E2, &[201])],
);

const CHOSEN_TO_P: Row = Row::Let(200, 201, K_CHOSEN, &[Line(202, P, PREMISE, &[])]);

const POSITIVE_UNTIL_K: Row = Row::Let(
    200,
    201,
    K_WITHIN_K,
    &[Line(202, K_POSITIVE, BOTTOM_E, &[NO])],
);

const OK: Option<BadStep> = None;

const SHAPE: Option<BadStep> = Some(BadStep::Shape);

const SYMBOL: Option<BadStep> = Some(BadStep::Symbol);

const NOT_CLOSED: Option<BadStep> = Some(BadStep::NotClosed);

/// The blocks that stand before, a claim by a rule from labels, and why it is refused.
#[derive(Clone, Copy)]
pub struct Case(
    pub &'static [Row],
    pub Claim,
    pub u8,
    pub &'static [u32],
    pub Option<BadStep>,
);

pub static JOINING: [Case; 45] = [
    Case(&[], P_AND_Q, PREMISE, &[], OK),
    Case(&[], Q_AND_P, PREMISE, &[], SHAPE),
    Case(&[], P, PREMISE, &[P], SHAPE),
    Case(&[], P_AND_Q, AND_I, &[P, Q], OK),
    Case(&[], P_AND_Q, AND_I, &[Q, P], SHAPE),
    Case(&[], P_AND_Q, AND_I, &[P], SHAPE),
    Case(&[], P_AND_Q, AND_I, &[P, Q, Q], SHAPE),
    Case(&[], P_OR_Q, AND_I, &[P, Q], SHAPE),
    Case(&[P_ALONE], P_AND_Q, AND_I, &[150, Q], SHAPE),
    Case(&[], P, AND_E1, &[P_AND_Q], OK),
    Case(&[], Q, AND_E1, &[P_AND_Q], SHAPE),
    Case(&[], P, AND_E1, &[P_OR_Q], SHAPE),
    Case(&[], P, AND_E1, &[P_AND_Q, P], SHAPE),
    Case(&[], P, AND_E1, &[], SHAPE),
    Case(&[P_ALONE], P, AND_E1, &[150], SHAPE),
    Case(&[], Q, AND_E2, &[P_AND_Q], OK),
    Case(&[], P, AND_E2, &[P_AND_Q], SHAPE),
    Case(&[], Q, AND_E2, &[P_OR_Q], SHAPE),
    Case(&[], Q, AND_E2, &[P_AND_Q, Q], SHAPE),
    Case(&[], Q, AND_E2, &[], SHAPE),
    Case(&[P_TO_Q], Q, AND_E2, &[120], SHAPE),
    Case(&[], P_OR_Q, OR_I1, &[P], OK),
    Case(&[], P_OR_Q, OR_I1, &[Q], SHAPE),
    Case(&[], P_AND_Q, OR_I1, &[P], SHAPE),
    Case(&[], P_OR_Q, OR_I1, &[P, P], SHAPE),
    Case(&[], P_OR_Q, OR_I1, &[], SHAPE),
    Case(&[P_ALONE], P_OR_Q, OR_I1, &[150], SHAPE),
    Case(&[], P_OR_K_POSITIVE, OR_I1, &[P], OK),
    Case(&[K_TO_P], P_OR_K_POSITIVE, OR_I1, &[P], SYMBOL),
    Case(&[], P_OR_Q, OR_I2, &[Q], OK),
    Case(&[], P_OR_Q, OR_I2, &[P], SHAPE),
    Case(&[], P_AND_Q, OR_I2, &[Q], SHAPE),
    Case(&[], P_OR_Q, OR_I2, &[Q, Q], SHAPE),
    Case(&[], P_OR_Q, OR_I2, &[], SHAPE),
    Case(&[P_TO_Q], P_OR_Q, OR_I2, &[120], SHAPE),
    Case(&[K_TO_P], K_POSITIVE_OR_P, OR_I2, &[P], SYMBOL),
    Case(&[P_TO_NO, Q_TO_NO], NO, OR_E, &[P_OR_Q, 100, 110], OK),
    Case(&[P_TO_NO, Q_TO_NO], NO, OR_E, &[P_OR_Q, 110, 100], SHAPE),
    Case(&[P_TO_NO, Q_TO_NO], NO, OR_E, &[100, P_OR_Q, 110], SHAPE),
    Case(&[P_TO_NO, Q_TO_NO], Q, OR_E, &[P_OR_Q, 100, 110], SHAPE),
    Case(&[P_TO_NO, Q_TO_NO], NO, OR_E, &[P_AND_Q, 100, 110], SHAPE),
    Case(&[P_TO_Q, Q_TO_NO], NO, OR_E, &[P_OR_Q, 120, 110], SHAPE),
    Case(&[P_TO_NO], NO, OR_E, &[P_OR_Q, 100], SHAPE),
    Case(&[P_TO_NO], NO, OR_E, &[P_OR_Q, 100, NO], SHAPE),
    Case(
        &[LET_P_TO_NO, Q_TO_NO],
        NO,
        OR_E,
        &[P_OR_Q, 200, 110],
        SHAPE,
    ),
];

pub static BLOCKS: [Case; 41] = [
    Case(&[P_TO_Q], P_THEN_Q, IMPLY_I, &[120], OK),
    Case(&[P_TO_NO], P_THEN_Q, IMPLY_I, &[100], SHAPE),
    Case(&[P_ALONE], P_THEN_Q, IMPLY_I, &[150], SHAPE),
    Case(&[P_TO_Q], P_OR_Q, IMPLY_I, &[120], SHAPE),
    Case(&[P_TO_Q], P_THEN_Q, IMPLY_I, &[120, 120], SHAPE),
    Case(&[], P_THEN_Q, IMPLY_I, &[], SHAPE),
    Case(&[], P_THEN_Q, IMPLY_I, &[Q], SHAPE),
    Case(&[LET_P_TO_Q], P_THEN_Q, IMPLY_I, &[200], SHAPE),
    Case(&[], Q, IMPLY_E, &[P_THEN_Q, P], OK),
    Case(&[], Q, IMPLY_E, &[P, P_THEN_Q], SHAPE),
    Case(&[], P, IMPLY_E, &[P_THEN_Q, P], SHAPE),
    Case(&[], Q, IMPLY_E, &[P_THEN_Q, Q], SHAPE),
    Case(&[], Q, IMPLY_E, &[P_AND_Q, P], SHAPE),
    Case(&[], Q, IMPLY_E, &[P_THEN_Q], SHAPE),
    Case(&[P_TO_Q], Q, IMPLY_E, &[120, P], SHAPE),
    Case(&[P_TO_NO], NOT_P, NEG_I, &[100], OK),
    Case(&[P_TO_Q], NOT_P, NEG_I, &[120], SHAPE),
    Case(&[Q_TO_NO], NOT_P, NEG_I, &[110], SHAPE),
    Case(&[P_TO_NO], P, NEG_I, &[100], SHAPE),
    Case(&[], NOT_P, NEG_I, &[NO], SHAPE),
    Case(&[], NOT_P, NEG_I, &[], SHAPE),
    Case(&[LET_P_TO_NO], NOT_P, NEG_I, &[200], SHAPE),
    Case(&[], NO, NEG_E, &[P, NOT_P], OK),
    Case(&[], NO, NEG_E, &[NOT_P, P], SHAPE),
    Case(&[], NO, NEG_E, &[Q, NOT_P], SHAPE),
    Case(&[], Q, NEG_E, &[P, NOT_P], SHAPE),
    Case(&[], NO, NEG_E, &[P], SHAPE),
    Case(&[P_TO_NO], NO, NEG_E, &[P, 100], SHAPE),
    Case(&[], Q_AND_P, BOTTOM_E, &[NO], OK),
    Case(&[], Q, BOTTOM_E, &[P], SHAPE),
    Case(&[], Q, BOTTOM_E, &[NO, NO], SHAPE),
    Case(&[], Q, BOTTOM_E, &[], SHAPE),
    Case(&[P_TO_NO], Q, BOTTOM_E, &[100], SHAPE),
    Case(&[K_TO_P], K_POSITIVE, BOTTOM_E, &[NO], SYMBOL),
    Case(&[NOT_P_TO_NO], P, PBC, &[130], OK),
    Case(&[P_TO_NO], P, PBC, &[100], SHAPE),
    Case(&[NOT_P_TO_NO], Q, PBC, &[130], SHAPE),
    Case(&[NOT_P_TO_P], P, PBC, &[140], SHAPE),
    Case(&[], P, PBC, &[NO], SHAPE),
    Case(&[], P, PBC, &[], SHAPE),
    Case(&[LET_NOT_P_TO_NO], P, PBC, &[200], SHAPE),
];

pub static PLACES: [Case; 32] = [
    Case(&[K_TO_POSITIVE], ALL, ALL_I, &[200], OK),
    Case(&[CHOSEN_TO_POSITIVE], ALL, ALL_I, &[200], SHAPE),
    Case(&[K_TO_P], ALL, ALL_I, &[200], SHAPE),
    Case(&[K_TO_POSITIVE], SOME, ALL_I, &[200], SHAPE),
    Case(&[K_TO_POSITIVE], ALL, ALL_I, &[200, 200], SHAPE),
    Case(&[N_TO_POSITIVE], ALL, ALL_I, &[160], SHAPE),
    Case(&[], ALL, ALL_I, &[ALL], SHAPE),
    Case(&[], ALL, ALL_I, &[], SHAPE),
    Case(&[POSITIVE_UNTIL_K], ALL_UNTIL_K, ALL_I, &[200], SYMBOL),
    Case(&[], N_POSITIVE, ALL_E, &[ALL, N_WITHIN], OK),
    Case(&[], N_POSITIVE, ALL_E, &[N_WITHIN, ALL], SHAPE),
    Case(&[], N_POSITIVE, ALL_E, &[SOME, N_WITHIN], SHAPE),
    Case(&[], N_POSITIVE, ALL_E, &[ALL, N_FROM_ZERO], SHAPE),
    Case(&[], N_FROM_ZERO, ALL_E, &[ALL, N_WITHIN], SHAPE),
    Case(&[], N_POSITIVE, ALL_E, &[ALL], SHAPE),
    Case(&[N_TO_POSITIVE], N_POSITIVE, ALL_E, &[ALL, 160], SHAPE),
    Case(&[], SOME, EXISTS_I, &[N_WITHIN, N_POSITIVE], OK),
    Case(&[], SOME, EXISTS_I, &[N_POSITIVE, N_WITHIN], SHAPE),
    Case(&[], ALL, EXISTS_I, &[N_WITHIN, N_POSITIVE], SHAPE),
    Case(&[], SOME, EXISTS_I, &[N_FROM_ZERO, N_POSITIVE], SHAPE),
    Case(&[], SOME, EXISTS_I, &[N_WITHIN, P], SHAPE),
    Case(&[], SOME, EXISTS_I, &[N_WITHIN], SHAPE),
    Case(&[N_TO_POSITIVE], SOME, EXISTS_I, &[160, N_POSITIVE], SHAPE),
    Case(&[CHOSEN_TO_P], P, EXISTS_E, &[SOME, 200], OK),
    Case(&[CHOSEN_TO_P], P, EXISTS_E, &[200, SOME], SHAPE),
    Case(&[CHOSEN_TO_P], Q, EXISTS_E, &[SOME, 200], SHAPE),
    Case(&[CHOSEN_TO_P], P, EXISTS_E, &[ALL, 200], SHAPE),
    Case(&[K_TO_P], P, EXISTS_E, &[SOME, 200], SHAPE),
    Case(&[SOME_TO_P], P, EXISTS_E, &[SOME, 170], SHAPE),
    Case(&[CHOSEN_TO_P], P, EXISTS_E, &[SOME], SHAPE),
    Case(&[], P, EXISTS_E, &[SOME, P], SHAPE),
    Case(
        &[CHOSEN_TO_POSITIVE],
        K_POSITIVE,
        EXISTS_E,
        &[SOME, 200],
        SYMBOL,
    ),
];

pub static CLOSED: [Case; 26] = [
    Case(&[], P, ALGEBRA, &[Q, P], OK),
    Case(&[], P, ALGEBRA, &[Q], NOT_CLOSED),
    Case(&[], P, ALGEBRA, &[], NOT_CLOSED),
    Case(&[P_ALONE], P, ALGEBRA, &[P, 150], SHAPE),
    Case(&[K_TO_P], K_POSITIVE, ALGEBRA, &[P], SYMBOL),
    Case(&[], P, AUTO, &[], OK),
    Case(&[], Q_AND_P, AUTO, &[], NOT_CLOSED),
    Case(&[], P, AUTO, &[P], SHAPE),
    Case(&[K_TO_P], K_POSITIVE, AUTO, &[], SYMBOL),
    Case(&[], P, SUBST_LEFT, &[P_IS_Q, Q], OK),
    Case(&[], P, SUBST_LEFT, &[P_IS_Q, P], OK),
    Case(&[], Q, SUBST_LEFT, &[P_IS_Q, Q], SHAPE),
    Case(&[], P, SUBST_LEFT, &[Q, P_IS_Q], SHAPE),
    Case(&[], P, SUBST_LEFT, &[P_AND_Q, Q], SHAPE),
    Case(&[], P, SUBST_LEFT, &[P_IS_Q], SHAPE),
    Case(&[P_TO_Q], P, SUBST_LEFT, &[P_IS_Q, 120], SHAPE),
    Case(&[], Q, SUBST_RIGHT, &[P_IS_Q, P], OK),
    Case(&[], P, SUBST_RIGHT, &[P_IS_Q, P], SHAPE),
    Case(&[], Q, SUBST_RIGHT, &[P, P_IS_Q], SHAPE),
    Case(&[], Q, SUBST_RIGHT, &[P_AND_Q, P], SHAPE),
    Case(&[], Q, SUBST_RIGHT, &[P_IS_Q], SHAPE),
    Case(&[P_TO_Q], Q, SUBST_RIGHT, &[P_IS_Q, 120], SHAPE),
    Case(
        &[],
        NEXT_FROM_ZERO,
        SUBST_RIGHT,
        &[N_IS_NEXT, N_FROM_ZERO],
        OK,
    ),
    Case(
        &[],
        N_FROM_ZERO,
        SUBST_RIGHT,
        &[N_IS_NEXT, N_FROM_ZERO],
        SHAPE,
    ),
    Case(&[], P, 21, &[], SHAPE),
    Case(&[K_TO_P], K_POSITIVE, PREMISE, &[], SHAPE),
];
