ghost use Rattle.std.specs.Prelude.{◌≡◌, ◌++◌, OnOk};
ghost use Rattle.slang_tree.specs.TypeTree.{type_tree};
ghost use Rattle.print_expressions.specs.Accounts.{type_account};
ghost use Rattle.print_layout.specs.Pieces.{bytes_of};
ghost use Rattle.print_layout.specs.Expressions.{type_pieces};
ghost use Rattle.token_printing.specs.Gaps.{gap_seen};

use crate::NoMemory;
use crate::gaps::Gap;
use crate::words::{add_name, add_text, add_word};
use slang_tree::TypeName;

/// Adds a type behind a gap.
pub fn add_type(ty: &TypeName, gap: Gap, text: &mut Vec<u8>) -> Result<(), NoMemory>
    ensures { OnOk result (text.new.items ≡ text.old.items ++ bytes_of (type_pieces (gap_seen gap) (type_account (type_tree ty.now)))) }
{
    match ty {
        TypeName::Z(_) => add_word(gap, "Z", text),
        TypeName::B(_) => add_word(gap, "B", text),
        TypeName::Unit(_) => add_word(gap, "Unit", text),
        TypeName::Seq(_, element) => {
            add_word(gap, "ISZ[", text)?;
            add_type(element.get(), Gap::None, text)?;
            add_text("]", text)
        }
        TypeName::Named(name) => add_name(gap, name, text),
    }
}
