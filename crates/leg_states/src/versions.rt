ghost use Rattle.std.specs.Prelude.{◌≡◌, ◌<◌, ◌++◌, ◌∷◌, [], None, Some, length, get_or, slice_set, if◌then◌else◌, IfOk, OnOk};
ghost use Rattle.std.proofs.Math.ListN.{replicate};
ghost use Rattle.leg_states.specs.State.{lists_of, number_at, version_at, put, pushed};

use crate::NoMemory;
use std::alloc::Global;

/// The versions of variables: of each the numbers of its terms.
pub type Versions = Vec<Vec<Option<usize>>>;

/// One version, which has no term.
fn unset(alloc: Global) -> Result<Vec<Option<usize>>, NoMemory>
    ensures { IfOk result (λ list. list.items ≡ None ∷ []) }
{
    let mut list = Vec::new(alloc);
    list.push(None)?;
    Ok(list)
}

/// One version of each of so many variables. None has a term.
pub fn all_unset(alloc: Global, count: usize) -> Result<Versions, NoMemory>
    ensures { IfOk result (λ versions. lists_of versions ≡ replicate count (None ∷ [])) }
{
    let mut versions = Vec::new(alloc);
    for _ in 0..count {
        versions.push(unset(alloc)?)?;
    }
    Ok(versions)
}

/// The last version of a variable.
pub fn last_version(versions: &Versions, x: usize) -> usize
    requires variable { x < length (lists_of versions.now) }
    requires present { 0 < length (get_or (lists_of versions.now) x []) }
    ensures { result ≡ version_at (lists_of versions.now) x }
{
    versions[x].len() - 1
}

/// The number of the term of a version, where it has one.
pub fn number_in(versions: &Versions, x: usize, k: usize) -> Option<usize>
    requires variable { x < length (lists_of versions.now) }
    requires version { k < length (get_or (lists_of versions.now) x []) }
    ensures { result ≡ number_at (lists_of versions.now) x k }
{
    versions[x][k]
}

/// The version has that term.
pub fn put_number(versions: &mut Versions, x: usize, k: usize, id: usize)
    requires variable { x < length (lists_of versions.old) }
    requires version { k < length (get_or (lists_of versions.old) x []) }
    ensures { lists_of versions.new ≡ put (lists_of versions.old) x k id }
{
    versions[x][k] = Some(id);
}

/// One version more.
pub fn push_version(versions: &mut Versions, x: usize, id: Option<usize>) -> Result<(), NoMemory>
    requires { x < length (lists_of versions.old) }
    ensures { OnOk result (lists_of versions.new ≡ pushed (lists_of versions.old) x id) }
{
    versions[x].push(id)?;
    Ok(())
}

/// One version more, where it is to begin.
pub fn begin_version(versions: &mut Versions, x: usize, begins: bool) -> Result<(), NoMemory>
    requires { x < length (lists_of versions.old) }
    ensures { OnOk result (lists_of versions.new ≡ (if begins then pushed (lists_of versions.old) x None else lists_of versions.old)) }
{
    if begins {
        push_version(versions, x, None)?;
    }
    Ok(())
}
