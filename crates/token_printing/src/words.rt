ghost use Rattle.std.specs.Prelude.{◌≡◌, ◌++◌, OnOk};
ghost use Rattle.print_layout.specs.Pieces.{gap_bytes};
ghost use Rattle.token_printing.specs.Gaps.{gap_seen};

use crate::NoMemory;
use crate::gaps::{Gap, add_gap};
use slang_tree::Name;

/// Adds these characters.
pub fn add_text(word: &str, text: &mut Vec<u8>) -> Result<(), NoMemory>
    ensures { OnOk result (text.new.items ≡ text.old.items ++ word.now) }
{
    text.extend_from_slice(word.as_bytes())?;
    Ok(())
}

/// Adds a word or a sign behind a gap.
pub fn add_word(gap: Gap, word: &str, text: &mut Vec<u8>) -> Result<(), NoMemory>
    ensures { OnOk result (text.new.items ≡ text.old.items ++ gap_bytes (gap_seen gap) ++ word.now) }
{
    add_gap(gap, text)?;
    add_text(word, text)
}

/// Adds a name behind a gap.
pub fn add_name(gap: Gap, name: &Name, text: &mut Vec<u8>) -> Result<(), NoMemory>
    ensures { OnOk result (text.new.items ≡ text.old.items ++ gap_bytes (gap_seen gap) ++ name.now.text) }
{
    add_word(gap, name.text.as_str(), text)
}
