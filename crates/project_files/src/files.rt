ghost use Rattle.std.specs.Prelude.{◌≡◌, ◌≤◌, IfOk, flat_map, length, map};
ghost use Rattle.type_rules.specs.Faults as faults;
ghost use Rattle.type_rules.specs.Projects as rule;
ghost use Rattle.project_files.specs.Files.{decl_of, file_of, file_seen, place_behind};

use crate::NoMemory;
use slang_tree::{Decl, NamedFile};
use std::alloc::Global;

/// Whether one name comes before another.
fn precedes(a: &str, b: &str) -> bool
    ensures { result ≡ faults.precedes a.now b.now }
{
    a.cmp(b).is_lt()
}

/// The place of a file among others that are in order: behind those whose names do not come after its own.
fn place_behind(files: &[&NamedFile], file: &NamedFile) -> usize
    ensures place { result ≡ place_behind (file_seen file.now) (map file_of files.now) }
    ensures within { result ≤ length files.now }
{
    for (at, next) in files.iter().enumerate() {
        if precedes(file.name.as_str(), next.name.as_str()) {
            return at;
        }
    }
    files.len()
}

/// The files in the order of their names' bytes.
pub fn in_order<'a>(alloc: Global, files: &'a [NamedFile]) -> Result<Vec<&'a NamedFile>, NoMemory>
    ensures { IfOk result (λ ordered. map file_of ordered.items ≡ rule.in_order (map file_seen files.now)) }
{
    let mut ordered: Vec<&NamedFile> = Vec::new(alloc);
    for file in files {
        let at = place_behind(ordered.as_slice(), file);
        ordered.insert(at, file)?;
    }
    Ok(ordered)
}

/// The declarations of files in this order.
pub fn declarations<'a>(alloc: Global, files: &[&'a NamedFile]) -> Result<Vec<&'a Decl>, NoMemory>
    ensures { IfOk result (λ decls. map decl_of decls.items ≡ flat_map (λ file. file.decls) (map file_of files.now)) }
{
    let mut decls: Vec<&Decl> = Vec::new(alloc);
    for file in files {
        for decl in file.tree.items.as_slice() {
            decls.push(decl)?;
        }
    }
    Ok(decls)
}
