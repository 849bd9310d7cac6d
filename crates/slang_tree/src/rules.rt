ghost use Rattle.std.specs.Prelude.{◌≡◌, map};
ghost use Rattle.slang_tree.specs.Rules.{numbered_in, named_in, row_of, rule_named, rule_numbered};

/// How many labels a step by a rule cites.
#[derive(Clone, Copy, Debug, PartialEq, Eq)]
pub enum Cited {
    Exactly(u8),
    Any,
}

/// A rule of deduction, by its number.
#[derive(Clone, Copy, Debug, PartialEq, Eq)]
pub struct Rule {
    pub number: u8,
    pub cited: Cited,
}

/// The rules of deduction by their names, with the labels that each cites.
const RULES: [(&str, u8, Cited); 21] = [
    ("Premise", 0, Cited::Exactly(0)),
    ("AndI", 1, Cited::Exactly(2)),
    ("AndE1", 2, Cited::Exactly(1)),
    ("AndE2", 3, Cited::Exactly(1)),
    ("OrI1", 4, Cited::Exactly(1)),
    ("OrI2", 5, Cited::Exactly(1)),
    ("OrE", 6, Cited::Exactly(3)),
    ("ImplyI", 7, Cited::Exactly(1)),
    ("ImplyE", 8, Cited::Exactly(2)),
    ("NegI", 9, Cited::Exactly(1)),
    ("NegE", 10, Cited::Exactly(2)),
    ("BottomE", 11, Cited::Exactly(1)),
    ("PbC", 12, Cited::Exactly(1)),
    ("AllI", 13, Cited::Exactly(1)),
    ("AllE", 14, Cited::Exactly(2)),
    ("ExistsI", 15, Cited::Exactly(2)),
    ("ExistsE", 16, Cited::Exactly(2)),
    ("Algebra", 17, Cited::Any),
    ("Auto", 18, Cited::Exactly(0)),
    ("Subst_<", 19, Cited::Exactly(2)),
    ("Subst_>", 20, Cited::Exactly(2)),
];

/// The rule of this name.
pub fn rule_named(name: &str) -> Option<Rule>
    ensures { result ≡ rule_named name.now }
{
    named_in(&RULES, name)
}

/// The rule of this number.
pub fn rule_numbered(number: u8) -> Option<Rule>
    ensures { result ≡ rule_numbered number }
{
    numbered_in(&RULES, number)
}

/// The rule of a table that has this name.
fn named_in(rows: &[(&str, u8, Cited)], name: &str) -> Option<Rule>
    ensures { result ≡ named_in (map row_of rows.now) name.now }
{
    'rows: for &(written, number, cited) in rows {
        if written == name {
            return Some(Rule { number, cited });
        }
    }
    None
}

/// The rule of a table that has this number.
fn numbered_in(rows: &[(&str, u8, Cited)], number: u8) -> Option<Rule>
    ensures { result ≡ numbered_in (map row_of rows.now) number }
{
    'rows: for &(_, own, cited) in rows {
        if own == number {
            return Some(Rule { number, cited });
        }
    }
    None
}
