ghost use Rattle.std.specs.Prelude.{◌≡◌, ◌++◌, IfOk, OnOk, string_bytes};
ghost use Rattle.std.specs.List.{flat_map};
ghost use Rattle.verdicts.specs.Texts.{count_text, fault_text, line_text, verdict_words, verified_count};
ghost use Rattle.verdicts.specs.Reports.{report_bytes};

use crate::NoMemory;
use crate::verdict::Verdict;
use crate::words::{fault_words, kind_words, node_words, place_words, reason_words};
use lk_programs::{NodePlace, Typed};
use slang_tree::{FileFault, Text};
use sqlite_items::Items;
use std::alloc::Global;

/// The verdict on a method.
#[derive(Debug, Drop)]
pub struct Line {
    pub method: Text,
    pub verdict: Verdict,
}

/// The verdicts on a program, one for each method, or the faults of files that have no program.
#[derive(Drop)]
pub enum Report {
    Faults(Items<FileFault>),
    Verdicts { typed: Typed, lines: Items<Line> },
}

/// A verdict as it is written.
fn verdict_words(
    alloc: Global,
    files: &[Text],
    nodes: &[NodePlace],
    verdict: Verdict,
) -> Result<String, NoMemory>
    ensures { IfOk result (λ words. string_bytes words ≡ verdict_words files.now nodes.now verdict) }
{
    match verdict {
        Verdict::Verified => String::from_str(alloc, "verified"),
        Verdict::Unproved { node, kind, reason } => {
            let place = node_words(alloc, files, nodes, node)?;
            let kind = kind_words(kind);
            let reason = reason_words(alloc, reason)?;
            format!(in alloc; "unproved {place} {kind} {reason}")
        }
        Verdict::ManyLegs => String::from_str(alloc, "legs many"),
    }
}

/// The line of a verdict.
fn line_text(
    alloc: Global,
    files: &[Text],
    nodes: &[NodePlace],
    line: &Line,
) -> Result<String, NoMemory>
    ensures { IfOk result (λ text. string_bytes text ≡ line_text files.now nodes.now line.now) }
{
    let method = line.method.as_str();
    let words = verdict_words(alloc, files, nodes, line.verdict)?;
    format!(in alloc; "{method} {words}\n")
}

/// How many methods are verified.
pub fn verified_count(lines: &[Line]) -> usize
    ensures { result ≡ verified_count lines.now }
{
    lines
        .iter()
        .filter(|line| line.verdict.is_verified())
        .count()
}

/// The line of the counts.
fn count_text(alloc: Global, lines: &[Line]) -> Result<String, NoMemory>
    ensures { IfOk result (λ text. string_bytes text ≡ count_text lines.now) }
{
    let methods = lines.len();
    let verified = verified_count(lines);
    format!(in alloc; "methods {methods} verified {verified}\n")
}

/// The line of a fault.
pub fn fault_text(alloc: Global, fault: &FileFault) -> Result<String, NoMemory>
    ensures { IfOk result (λ text. string_bytes text ≡ fault_text fault.now) }
{
    let place = place_words(alloc, fault.file.as_str(), fault.fault.place)?;
    let code = fault.fault.code;
    let words = fault_words(code);
    format!(in alloc; "{place} E{code} {words}\n")
}

/// Adds the lines of verdicts at the end of a text.
fn add_lines(
    alloc: Global,
    text: &mut Vec<u8>,
    files: &[Text],
    nodes: &[NodePlace],
    lines: &[Line],
) -> Result<(), NoMemory>
    ensures { OnOk result (text.new.items ≡ text.old.items ++ flat_map (line_text files.now nodes.now) lines.now) }
{
    for line in lines {
        let written = line_text(alloc, files, nodes, line)?;
        text.extend_from_slice(written.as_bytes())?;
    }
    Ok(())
}

/// Adds the lines of faults at the end of a text.
fn add_faults(alloc: Global, text: &mut Vec<u8>, faults: &[FileFault]) -> Result<(), NoMemory>
    ensures { OnOk result (text.new.items ≡ text.old.items ++ flat_map fault_text faults.now) }
{
    for fault in faults {
        let written = fault_text(alloc, fault)?;
        text.extend_from_slice(written.as_bytes())?;
    }
    Ok(())
}

/// The text of a report.
pub fn report_text(alloc: Global, revision: u64, report: &Report) -> Result<Vec<u8>, NoMemory>
    ensures { IfOk result (λ text. text.items ≡ report_bytes revision report.now) }
{
    let mut text = Vec::new(alloc);
    let first = format!(in alloc; "revision {revision}\n")?;
    text.extend_from_slice(first.as_bytes())?;
    match report {
        Report::Faults(faults) => {
            add_faults(alloc, &mut text, faults.as_slice())?;
            Ok(text)
        }
        Report::Verdicts { typed, lines } => {
            add_lines(
                alloc,
                &mut text,
                typed.files.as_slice(),
                typed.nodes.as_slice(),
                lines.as_slice(),
            )?;
            let last = count_text(alloc, lines.as_slice())?;
            text.extend_from_slice(last.as_bytes())?;
            Ok(text)
        }
    }
}
