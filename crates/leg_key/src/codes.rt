ghost use Rattle.std.specs.Prelude.{◌≡◌};
ghost use Rattle.key_rules.specs.Codes.{claim_code, flag_code, kind_code, of_binary, of_quantified, of_truth_literal};

use program_trees::Kind;
use slang_values::{Binary, Quantifier};

/// What a key begins with: the form of keys.
pub const PROFILE: u8 = 1;

// Types.
pub const NUMBER: u8 = 0;

pub const TRUTH: u8 = 1;

pub const SEQUENCE: u8 = 2;

pub const RECORD: u8 = 3;

// Claims. Those of the operators, quantifiers and truth values have functions below.
pub const LITERAL: u8 = 0;

pub const VARIABLE: u8 = 3;

pub const BOUND: u8 = 4;

pub const OLD_VARIABLE: u8 = 5;

pub const NEG: u8 = 6;

pub const NOT: u8 = 7;

pub const SIZE: u8 = 19;

pub const UPDATE: u8 = 21;

pub const SEQUENCE_LITERAL: u8 = 23;

pub const RECORD_LITERAL: u8 = 24;

pub const FIELD: u8 = 25;

pub const LET_SYMBOL: u8 = 28;

// Steps of proofs.
pub const LINE: u8 = 0;

pub const BLOCK: u8 = 1;

// Items.
pub const ASSUME: u8 = 0;

pub const CHECK: u8 = 1;

pub const SET: u8 = 2;

pub const FRESH: u8 = 3;

pub const PROOF: u8 = 4;

pub fn binary(op: Binary) -> u8
    ensures { result ≡ claim_code (of_binary op) }
{
    match op {
        Binary::Add => 8,
        Binary::Sub => 9,
        Binary::Mul => 10,
        Binary::Div => 11,
        Binary::Rem => 12,
        Binary::And => 13,
        Binary::Or => 14,
        Binary::Imply => 15,
        Binary::Eq => 16,
        Binary::Lt => 17,
        Binary::Le => 18,
        Binary::Read => 20,
        Binary::Append => 22,
    }
}

pub fn quantified(quantifier: Quantifier) -> u8
    ensures { result ≡ claim_code (of_quantified quantifier) }
{
    match quantifier {
        Quantifier::All => 26,
        Quantifier::Exists => 27,
    }
}

pub fn truth(holds: bool) -> u8
    ensures { result ≡ claim_code (of_truth_literal holds) }
{
    if holds { 1 } else { 2 }
}

/// Whether a block has a symbol.
pub fn flag(is_set: bool) -> u8
    ensures { result ≡ flag_code is_set }
{
    if is_set { 1 } else { 0 }
}

pub fn kind(kind: Kind) -> u8
    ensures { result ≡ kind_code kind }
{
    match kind {
        Kind::Assert => 0,
        Kind::Requires => 1,
        Kind::Ensures => 2,
        Kind::InvStart => 3,
        Kind::InvKept => 4,
        Kind::Index => 5,
        Kind::Division => 6,
        Kind::Deduce => 7,
        Kind::Term => 8,
    }
}
