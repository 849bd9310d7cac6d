ghost use Rattle.std.specs.Prelude.{◌≡◌, IfOk, string_bytes};
ghost use Rattle.verdicts.specs.Texts.{fault_words, file_name, kind_words, node_place, node_words, place_words, reason_words};

use crate::NoMemory;
use lk_programs::{NodeNo, NodePlace};
use program_trees::{Kind, Reason};
use slang_tree::{Place, Text};
use std::alloc::Global;

/// The word for a kind of check.
pub fn kind_words(kind: Kind) -> &'static str
    ensures { result.now ≡ kind_words kind }
{
    match kind {
        Kind::Assert => "assert",
        Kind::Requires => "requires",
        Kind::Ensures => "ensures",
        Kind::InvStart => "invariant-start",
        Kind::InvKept => "invariant-kept",
        Kind::Index => "index",
        Kind::Division => "division",
        Kind::Deduce => "deduce",
        Kind::Term => "term",
    }
}

/// The words for a reason.
pub fn reason_words(alloc: Global, reason: Reason) -> Result<String, NoMemory>
    ensures { IfOk result (λ words. string_bytes words ≡ reason_words reason) }
{
    match reason {
        Reason::Open => String::from_str(alloc, "open"),
        Reason::Cases => String::from_str(alloc, "cases"),
        Reason::Rows => String::from_str(alloc, "rows"),
        Reason::Wide => String::from_str(alloc, "wide"),
        Reason::Size => String::from_str(alloc, "size"),
        Reason::Instances => String::from_str(alloc, "instances"),
        Reason::Rule(step) => format!(in alloc; "step {step}"),
    }
}

/// The words for a fault's code.
pub fn fault_words(code: u8) -> &'static str
    ensures { result.now ≡ fault_words code }
{
    match code {
        1 => "not UTF-8",
        2 => "bad character",
        3 => "literal outside 128 bits",
        4 => "unexpected token",
        5 => "nesting above 200",
        6 => "unknown name",
        7 => "duplicate name",
        8 => "type differs",
        9 => "argument count",
        10 => "assignment to a constant",
        11 => "outside Modifies",
        12 => "call in the wrong place",
        13 => "loop without Invariant",
        14 => "form left out",
        15 => "claim word out of place",
        16 => "more than 10000 methods",
        _ => "",
    }
}

/// A place in a file, as it is written.
pub fn place_words(alloc: Global, file: &str, place: Place) -> Result<String, NoMemory>
    ensures { IfOk result (λ words. string_bytes words ≡ place_words file.now place) }
{
    let line = place.line;
    let col = place.col;
    format!(in alloc; "{file}:{line}:{col}")
}

/// Where a node stands.
fn node_place(nodes: &[NodePlace], node: NodeNo) -> NodePlace
    ensures { result ≡ node_place nodes.now node }
{
    match nodes.get(node.0 as usize) {
        Some(node) => *node,
        None => NodePlace {
            file: 0,
            place: Place { line: 1, col: 1 },
        },
    }
}

/// The name of the file of that number.
fn file_name(files: &[Text], file: u32) -> &str
    ensures { result.now ≡ file_name files.now file }
{
    match files.get(file as usize) {
        Some(file) => file.as_str(),
        None => "",
    }
}

/// The place of a node, as it is written.
pub fn node_words(
    alloc: Global,
    files: &[Text],
    nodes: &[NodePlace],
    node: NodeNo,
) -> Result<String, NoMemory>
    ensures { IfOk result (λ words. string_bytes words ≡ node_words files.now nodes.now node) }
{
    let place = node_place(nodes, node);
    place_words(alloc, file_name(files, place.file), place.place)
}
