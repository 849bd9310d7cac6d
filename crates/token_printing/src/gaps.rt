ghost use Rattle.std.specs.Prelude.{◌≡◌, ◌*◌, ◌++◌, replicate, OnOk};
ghost use Rattle.print_layout.specs.Pieces.{gap_bytes};
ghost use Rattle.token_printing.specs.Gaps.{gap_seen};

use crate::NoMemory;
use crate::words::add_text;

/// What stands before a token: nothing, a blank, or at the beginning of a line two blanks for each level, behind a
/// newline that is a token or behind one that is none.
#[derive(Clone, Copy, Debug, PartialEq, Eq)]
pub enum Gap {
    None,
    Blank,
    Indent(u32),
    Line(u32),
}

/// Adds two blanks for each level.
fn add_blanks(depth: u32, text: &mut Vec<u8>) -> Result<(), NoMemory>
    ensures { OnOk result (text.new.items ≡ text.old.items ++ replicate (2 * depth) 32) }
{
    for level in 0..depth {
        add_text("  ", text)?;
    }
    Ok(())
}

/// Adds a gap.
pub fn add_gap(gap: Gap, text: &mut Vec<u8>) -> Result<(), NoMemory>
    ensures { OnOk result (text.new.items ≡ text.old.items ++ gap_bytes (gap_seen gap)) }
{
    match gap {
        Gap::None => Ok(()),
        Gap::Blank => add_text(" ", text),
        Gap::Indent(depth) => add_blanks(depth, text),
        Gap::Line(depth) => {
            add_text("\n", text)?;
            add_blanks(depth, text)
        }
    }
}
