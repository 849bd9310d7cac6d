ghost use Rattle.std.specs.Prelude.{◌≡◌, ◌++◌, codes, get_or, IfOk, OnOk};
ghost use Rattle.std.specs.Fmt.{decimal};
ghost use Rattle.std.specs.String.{string_bytes};
ghost use Rattle.run_texts.specs.Texts.{Names, kind_text, node_text, no_place};
ghost use Rattle.run_lines.specs.Lines.{names_in, place_seen, file_in};

use crate::NoMemory;
use lk_programs::{Kind, NodeNo, NodePlace, Typed};
use slang_tree::Place;
use std::alloc::Global;
use value_texts::add_text;

/// The word for what a run failed at.
pub fn kind_word(kind: Kind) -> &'static str
    ensures { (names : Names) → result.now ≡ kind_text names kind }
{
    match kind {
        Kind::Assert => "assert",
        Kind::Requires => "requires",
        Kind::Ensures => "ensures",
        Kind::InvStart => "invariant-start",
        Kind::InvKept => "invariant-kept",
        Kind::Index => "index",
        Kind::Division => "division",
        Kind::Deduce => "deduce",
        Kind::Term => "term",
    }
}

/// Where the node stands.
#[tactic(auto, using(crate::proofs::Names::place_lines))]
fn node_place(typed: &Typed, node: NodeNo) -> NodePlace
    ensures { place_seen result ≡ get_or (names_in typed.now).nodes node.0 (no_place (names_in typed.now)) }
{
    match typed.nodes.get(node.0 as usize) {
        Some(place) => *place,
        None => NodePlace {
            file: 0,
            place: Place { line: 1, col: 1 },
        },
    }
}

/// The name of the file of that number, where there is one.
#[tactic(auto, using(crate::proofs::Names::file_lines))]
fn file_name(typed: &Typed, file: u32) -> &str
    ensures { result.now ≡ file_in typed.now file }
{
    match typed.files.get(file as usize) {
        Some(name) => name.as_str(),
        None => "",
    }
}

fn place_words(alloc: Global, file: &str, place: Place) -> Result<String, NoMemory>
    ensures { IfOk result (λ words. string_bytes words ≡ file.now ++ (codes ":" ++ (decimal place.line ++ (codes ":" ++ decimal place.col)))) }
{
    let line = place.line;
    let col = place.col;
    format!(in alloc; "{file}:{line}:{col}")
}

/// The place of a node, as it is written.
fn node_words(alloc: Global, typed: &Typed, node: NodeNo) -> Result<String, NoMemory>
    ensures { IfOk result (λ words. string_bytes words ≡ node_text (names_in typed.now) node.0) }
{
    let at = node_place(typed, node);
    place_words(alloc, file_name(typed, at.file), at.place)
}

/// Adds the place of a node.
pub fn add_node(
    alloc: Global,
    typed: &Typed,
    node: NodeNo,
    text: &mut Vec<u8>,
) -> Result<(), NoMemory>
    ensures { OnOk result (text.new.items ≡ text.old.items ++ node_text (names_in typed.now) node.0) }
{
    let words = node_words(alloc, typed, node)?;
    add_text(words.as_str(), text)
}
