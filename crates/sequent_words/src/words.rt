ghost use Rattle.std.specs.Prelude.{◌≡◌, ◌<◌, length, true, IfOk};
ghost use Rattle.validity.specs.Validity.{IsWellSorted};
ghost use Rattle.term_store.specs.Store.{AreWithin};
ghost use Rattle.term_store.specs.Sequent.{sequent_at, IsSequentWithin};
ghost use Rattle.sequent_words.specs.Room.{HasRoom};

use crate::end::WordsEnd;
use node_parts::parts_of;
use slang_values::{Binary, Quantifier, Unary};
use sorted_sequents::{is_well_sorted, is_within};
use sqlite_items::{Boxed, Items};
use std::alloc::Global;
use term_store::{IdSequent, Node, TermStore};
use term_trees::Sort;

/// What a word makes of the terms in front of it.
#[derive(Clone, Copy)]
enum Head {
    Unary(Unary),
    Binary(Binary),
    Update,
    Quantified(Quantifier),
    /// Of so many numbers.
    Numbers(usize),
    /// The record of that number, of so many fields.
    Record(u32, usize),
}

const HEADS: [(&str, Head); 29] = [
    ("neg", Head::Unary(Unary::Neg)),
    ("not", Head::Unary(Unary::Not)),
    ("size", Head::Unary(Unary::Size)),
    (".0", Head::Unary(Unary::Field(0))),
    (".1", Head::Unary(Unary::Field(1))),
    ("+", Head::Binary(Binary::Add)),
    ("-", Head::Binary(Binary::Sub)),
    ("*", Head::Binary(Binary::Mul)),
    ("/", Head::Binary(Binary::Div)),
    ("%", Head::Binary(Binary::Rem)),
    ("&", Head::Binary(Binary::And)),
    ("|", Head::Binary(Binary::Or)),
    ("->:", Head::Binary(Binary::Imply)),
    ("==", Head::Binary(Binary::Eq)),
    ("<", Head::Binary(Binary::Lt)),
    ("<=", Head::Binary(Binary::Le)),
    ("at", Head::Binary(Binary::Read)),
    (":+", Head::Binary(Binary::Append)),
    ("upd", Head::Update),
    ("all", Head::Quantified(Quantifier::All)),
    ("exists", Head::Quantified(Quantifier::Exists)),
    ("Z:0", Head::Numbers(0)),
    ("Z:1", Head::Numbers(1)),
    ("Z:2", Head::Numbers(2)),
    ("Z:3", Head::Numbers(3)),
    ("rec0", Head::Record(0, 2)),
    ("rec1", Head::Record(1, 2)),
    ("rec0:1", Head::Record(0, 1)),
    ("rec0:0", Head::Record(0, 0)),
];

/// A sequent as words: the sorts of the symbols, those of the fields of each record, parted by `/`, and the facts, each with a
/// comma behind it, and the goal.
///
/// Words stand behind what they are about, as in `a 2 * b <`, and take their parts from a stack: `dup` is the last term once more,
/// and `over` the one before it. A small letter is a symbol, `i0` the innermost bound variable. A middle part stands so many
/// times; in it `#` is the count of the times before, `s#` the symbol of that number, and `t#` the next symbol.
#[derive(Clone, Copy)]
pub struct Words<'a> {
    pub records: &'a str,
    pub symbols: &'a str,
    pub front: &'a str,
    pub middle: &'a str,
    pub times: u32,
    pub goal: &'a str,
}

fn base_sort(word: &str) -> Result<Sort, WordsEnd> {
    match word {
        "Z" => return Ok(Sort::Z),
        "B" => return Ok(Sort::B),
        _ => {}
    }
    match word.strip_prefix('R') {
        Some(digits) => Ok(Sort::Rec(digits.parse::<u32>().map_err(|_| WordsEnd::BadWord)?)),
        None => Err(WordsEnd::BadWord),
    }
}

/// A sort, as `Z`, `B`, `R0`, and with a star sequences of it.
fn sort_of(alloc: Global, word: &str) -> Result<Sort, WordsEnd> {
    match word.strip_suffix('*') {
        Some(element) => Ok(Sort::Seq(Boxed::new(alloc, base_sort(element)?)?)),
        None => base_sort(word),
    }
}

fn sorts_of(alloc: Global, words: &str) -> Result<Items<Sort>, WordsEnd> {
    let mut sorts = Items::new(alloc);
    add_sorts(alloc, &mut sorts, words)?;
    Ok(sorts)
}

fn add_sorts(alloc: Global, sorts: &mut Items<Sort>, words: &str) -> Result<(), WordsEnd> {
    for word in words.split(' ') {
        if !word.is_empty() {
            sorts.push(sort_of(alloc, word)?)?;
        }
    }
    Ok(())
}

fn add_records(
    alloc: Global,
    records: &mut Items<Items<Sort>>,
    words: &str,
) -> Result<(), WordsEnd> {
    for part in words.split('/') {
        if !part.is_empty() {
            records.push(sorts_of(alloc, part)?)?;
        }
    }
    Ok(())
}

fn head_of(word: &str) -> Option<Head> {
    for (sign, head) in &HEADS {
        if *sign == word {
            return Some(*head);
        }
    }
    None
}

/// A truth value, a symbol, by its letter, a bound variable, a number, or the count.
fn leaf(word: &str, count: u32) -> Result<Node, WordsEnd> {
    match word {
        "T" => return Ok(Node::True),
        "F" => return Ok(Node::False),
        "#" => return Ok(Node::Lit(i128::from(count))),
        "s#" => return Ok(Node::Symbol(count)),
        "t#" => return Ok(Node::Symbol(count.saturating_add(1))),
        _ => {}
    }
    if let [letter @ b'a'..=b'z'] = word.as_bytes() {
        return Ok(Node::Symbol(u32::from(*letter - b'a')));
    }
    if let Some(digits) = word.strip_prefix('i') {
        return Ok(Node::Bound(digits.parse::<u32>().map_err(|_| WordsEnd::BadWord)?));
    }
    Ok(Node::Lit(word.parse::<i128>().map_err(|_| WordsEnd::BadWord)?))
}

fn last(stack: &mut Items<usize>) -> Result<usize, WordsEnd> {
    stack.pop().ok_or(WordsEnd::BadWord)
}

/// The number at that place from the end, from 1.
fn from_end(stack: &Items<usize>, place: usize) -> Result<usize, WordsEnd> {
    if place > stack.len() || place == 0 {
        return Err(WordsEnd::BadWord);
    }
    Ok(stack.as_slice()[stack.len() - place])
}

/// So many numbers, from the left.
fn last_of(
    alloc: Global,
    stack: &mut Items<usize>,
    count: usize,
) -> Result<Items<usize>, WordsEnd> {
    let mut turned = Items::new(alloc);
    for _ in 0..count {
        turned.push(last(stack)?)?;
    }
    let mut parts = Items::new(alloc);
    for _ in 0..count {
        parts.push(last(&mut turned)?)?;
    }
    Ok(parts)
}

/// The node of this operator over the last numbers, which are taken.
fn headed(alloc: Global, stack: &mut Items<usize>, head: Head) -> Result<Node, WordsEnd> {
    match head {
        Head::Unary(op) => Ok(Node::unary(op, last(stack)?)),
        Head::Binary(op) => {
            let b = last(stack)?;
            Ok(Node::binary(op, last(stack)?, b))
        }
        Head::Update => {
            let x = last(stack)?;
            let i = last(stack)?;
            Ok(Node::Update(last(stack)?, i, x))
        }
        Head::Quantified(quantifier) => {
            let body = last(stack)?;
            let high = last(stack)?;
            Ok(Node::quantified(quantifier, last(stack)?, high, body))
        }
        Head::Numbers(count) => Ok(Node::SeqLit(Sort::Z, last_of(alloc, stack, count)?)),
        Head::Record(number, count) => Ok(Node::Rec(number, last_of(alloc, stack, count)?)),
    }
}

fn are_within(store: &TermStore, ids: &[usize]) -> bool
    ensures { result ≡ true → AreWithin store.now ids.now }
{
    let count = store.len();
    for id in ids {
        if *id >= count {
            return false;
        }
    }
    true
}

/// The number of the node, whose parts are in the store.
fn add(alloc: Global, store: &mut TermStore, node: Node) -> Result<usize, WordsEnd> {
    let parts = parts_of(alloc, &node)?;
    if !are_within(store, parts.as_slice()) {
        return Err(WordsEnd::BadWord);
    }
    Ok(store.add_node(node)?)
}

fn read_word(
    alloc: Global,
    store: &mut TermStore,
    stack: &mut Items<usize>,
    word: &str,
    count: u32,
) -> Result<(), WordsEnd> {
    let node = match head_of(word) {
        Some(head) => headed(alloc, stack, head)?,
        None => leaf(word, count)?,
    };
    stack.push(add(alloc, store, node)?)?;
    Ok(())
}

/// Adds the facts that have a comma behind them.
fn read(
    alloc: Global,
    store: &mut TermStore,
    stack: &mut Items<usize>,
    facts: &mut Items<usize>,
    words: &str,
    count: u32,
) -> Result<(), WordsEnd> {
    for word in words.split(' ') {
        match word {
            "" => {}
            "," => facts.push(last(stack)?)?,
            "dup" => stack.push(from_end(stack, 1)?)?,
            "over" => stack.push(from_end(stack, 2)?)?,
            _ => read_word(alloc, store, stack, word, count)?,
        }
    }
    Ok(())
}

/// The facts, and the number of the goal.
fn read_all(
    alloc: Global,
    store: &mut TermStore,
    facts: &mut Items<usize>,
    words: Words<'_>,
) -> Result<usize, WordsEnd> {
    let mut stack = Items::new(alloc);
    read(alloc, store, &mut stack, facts, words.front, 0)?;
    for count in 0..words.times {
        read(alloc, store, &mut stack, facts, words.middle, count)?;
    }
    read(alloc, store, &mut stack, facts, words.goal, 0)?;
    last(&mut stack)
}

/// The sequent of the words.
fn spelled(alloc: Global, store: &mut TermStore, words: Words<'_>) -> Result<IdSequent, WordsEnd> {
    let mut sequent = IdSequent {
        sorts: Items::new(alloc),
        records: Items::new(alloc),
        facts: Items::new(alloc),
        goal: 0,
    };
    add_sorts(alloc, &mut sequent.sorts, words.symbols)?;
    add_records(alloc, &mut sequent.records, words.records)?;
    sequent.goal = read_all(alloc, store, &mut sequent.facts, words)?;
    Ok(sequent)
}

/// Whether there are numbers enough for the symbols that a quantified goal brings.
fn has_room(store: &TermStore, sequent: &IdSequent) -> bool
    requires { sequent.now.goal < length store.now }
    ensures { result ≡ true → HasRoom store.now sequent.now }
{
    let nodes = store.measure(sequent.goal).nodes;
    nodes < u32::MAX && sequent.sorts.len() < (u32::MAX - nodes) as usize
}

/// Whether the sequent can be closed at all.
fn is_ready(alloc: Global, store: &TermStore, sequent: &IdSequent) -> Result<bool, WordsEnd>
    ensures within { IfOk result (λ b. b ≡ true → IsSequentWithin store.now sequent.now) }
    ensures sorted { IfOk result (λ b. b ≡ true → IsWellSorted (sequent_at store.now sequent.now)) }
    ensures room { IfOk result (λ b. b ≡ true → HasRoom store.now sequent.now) }
{
    if !is_within(store, sequent) {
        return Ok(false);
    }
    if !has_room(store, sequent) {
        return Ok(false);
    }
    Ok(is_well_sorted(alloc, store, sequent)?)
}

/// The sequent of the words, over the store, to which the terms are added that it lacks. The numbers are in the store, and
/// the sequent is well sorted: of words that spell none there is none.
pub fn sequent_of(
    alloc: Global,
    store: &mut TermStore,
    words: Words<'_>,
) -> Result<IdSequent, WordsEnd>
    ensures within { IfOk result (λ s. IsSequentWithin store.new s) }
    ensures sorted { IfOk result (λ s. IsWellSorted (sequent_at store.new s)) }
    ensures room { IfOk result (λ s. HasRoom store.new s) }
{
    let sequent = spelled(alloc, store, words)?;
    if is_ready(alloc, store, &sequent)? {
        Ok(sequent)
    } else {
        Err(WordsEnd::BadWord)
    }
}
