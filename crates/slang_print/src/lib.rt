//! Printing: a tree as a text that reads back to it, but for the places.
#![tactic(auto)]

mod files;

ghost use Rattle.std.specs.Prelude.{◌≡◌, ℕ, List};
ghost use Rattle.lk_io.specs.Run.{run};
ghost use Rattle.slang_tree.specs.DeclTree.{DeclTree, file_tree};
ghost use Rattle.slang_grammar.specs.Texts.{Reads};
ghost use Rattle.print_declarations.specs.Bare.{bare_file};
ghost use Rattle.print_tokens.specs.Printed.{IsPrinted};
ghost use Rattle.print_tokens.specs.Laws.{ReadsBack};
ghost use Rattle.slang_print.specs.Printed.{Prints};

use files::write_file;
use lk_io::{GiveEnd, Sink, give_all};
use slang_tree::File;
use std::alloc::{AllocError, Global};
use thiserror::Error;

/// Why a text was not printed to its end.
#[derive(Debug, Drop, Error)]
pub enum PrintEnd {
    /// The sink failed behind so many bytes.
    #[error("writing failed behind {out} bytes")]
    WriteFault { out: u64 },
    #[error("out of memory")]
    NoMemory,
}

impl From<AllocError> for PrintEnd {
    ghost use Rattle.std.specs.Prelude.{◌≡◌};
    ghost use Rattle.slang_print.specs.declared.PrintEnd.TheVariants.{NoMemory};

    ghost from_gives = { λ failed end. end ≡ NoMemory };

    fn from(_end: AllocError) -> PrintEnd {
        PrintEnd::NoMemory
    }
}

/// Gives a text of the declarations to a sink, two blanks a level. It has brackets only where they are needed, but where
/// it would nest too deep so, it has them also where they make it nest less deep. What was given is a front of that
/// text, and the whole of it on `Ok`.
///
/// Where the declarations are, but for their places, those of some bytes, the text is read with the same declarations,
/// but for their places.
pub fn print_file<S: Sink>(alloc: Global, file: &File, out: &mut S) -> Result<(), PrintEnd>
    ensures given { Prints (run (S.state out.old) (S.state out.new)) (file_tree file.now) result }
    ensures reads_back { (bytes : List ℕ) (read : List DeclTree) → Reads bytes read → bare_file (file_tree file.now) ≡ bare_file read →
        (printed : List ℕ) → IsPrinted (file_tree file.now) printed → ReadsBack printed (file_tree file.now) }
{
    let mut text = Vec::new(alloc);
    write_file(alloc, file.items.as_slice(), &mut text)?;
    match give_all(out, text.as_slice()) {
        Ok(()) => Ok(()),
        Err(GiveEnd::Failed { out: given }) => Err(PrintEnd::WriteFault { out: given as u64 }),
        Err(GiveEnd::NoMemory { .. }) => Err(PrintEnd::NoMemory),
    }
}
