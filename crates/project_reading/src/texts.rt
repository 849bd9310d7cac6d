ghost use Rattle.std.specs.Prelude.{◌≡◌, ◌≤◌, IfOk, length, map};
ghost use Rattle.type_rules.specs.Faults as faults;
ghost use Rattle.project_reports.specs.Projects as project;
ghost use Rattle.project_reading.specs.Texts.{place_behind, text_of, text_seen};

use crate::NoMemory;
use std::alloc::Global;

/// A file of a project by its name, with its bytes.
#[derive(Drop)]
pub struct NamedText {
    pub name: String,
    pub bytes: Vec<u8>,
}

/// Whether one name comes before another.
fn precedes(a: &str, b: &str) -> bool
    ensures { result ≡ faults.precedes a.now b.now }
{
    a.cmp(b).is_lt()
}

/// The place of a text among others that are in order: behind those whose names do not come after its own.
fn place_behind(texts: &[&NamedText], text: &NamedText) -> usize
    ensures place { result ≡ place_behind (λ t. t.name) (text_seen text.now) (map text_of texts.now) }
    ensures within { result ≤ length texts.now }
{
    for (at, next) in texts.iter().enumerate() {
        if precedes(text.name.as_str(), next.name.as_str()) {
            return at;
        }
    }
    texts.len()
}

/// The texts in the order of their names' bytes.
pub fn in_order<'a>(alloc: Global, texts: &'a [NamedText]) -> Result<Vec<&'a NamedText>, NoMemory>
    ensures { IfOk result (λ ordered. map text_of ordered.items ≡ project.in_order (map text_seen texts.now)) }
{
    let mut ordered: Vec<&NamedText> = Vec::new(alloc);
    for text in texts {
        let at = place_behind(ordered.as_slice(), text);
        ordered.insert(at, text)?;
    }
    Ok(ordered)
}
