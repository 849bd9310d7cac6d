//! The place of the text at which the statements of the tests stand.

use name_maps::NameMap;
use name_scopes::{Meaning, Method, NameScope, RecordFields, Signature};
use slang_tree::Text;
use sqlite_items::Items;
use std::alloc::Global;
use std::test::Fail;
use text_types::{ElementType, TextType};

/// The variables: `x` is a parameter, `v`, `a` and `e` are `var`s, of which what is written for the type of `e` has a fault. Of the
/// globals `k` is a `val`, and `g` and `h` are `var`s.
const VARIABLES: [(&str, bool, bool, Option<TextType>); 7] = [
    ("x", false, false, Some(TextType::Z)),
    ("v", false, true, Some(TextType::Z)),
    ("a", false, true, Some(TextType::Sequence(ElementType::Z))),
    ("e", false, true, None),
    ("k", true, false, Some(TextType::Z)),
    ("g", true, true, Some(TextType::Z)),
    ("h", true, true, Some(TextType::B)),
];

/// Those that may be changed.
const COVERED: [&str; 4] = ["v", "a", "e", "g"];

/// The methods: whether each takes a number and gives one, and the global that it changes.
const METHODS: [(&str, bool, Option<&str>); 3] = [
    ("m", true, Some("g")),
    ("n", false, Some("h")),
    ("u", false, None),
];

fn variable(number: u32, global: bool, changes: bool, ty: Option<TextType>) -> Meaning {
    if global {
        Meaning::Global {
            number,
            changes,
            ty,
        }
    } else {
        Meaning::Local {
            number,
            changes,
            ty,
        }
    }
}

fn signature(alloc: Global, numbers: bool) -> Result<Signature, Fail> {
    let types = [TextType::Z];
    if numbers {
        let params = Items::from_slice(alloc, &types)?;
        Ok(Signature {
            params,
            result: TextType::Z,
        })
    } else {
        Ok(Signature {
            params: Items::new(alloc),
            result: TextType::Unit,
        })
    }
}

fn changed(alloc: Global, global: Option<&str>) -> Result<Items<Text>, Fail> {
    let mut modifies = Items::new(alloc);
    if let Some(name) = global {
        modifies.push(Text::from_str(alloc, name)?)?;
    }
    Ok(modifies)
}

fn method(
    alloc: Global,
    number: u32,
    numbers: bool,
    global: Option<&str>,
) -> Result<Meaning, Fail> {
    let signature = signature(alloc, numbers)?;
    let modifies = changed(alloc, global)?;
    Ok(Meaning::Method(Method {
        number,
        signature: Some(signature),
        modifies,
    }))
}

fn add_variables(alloc: Global, names: &mut NameMap<Meaning>) -> Result<(), Fail> {
    for &(name, global, changes, ty) in &VARIABLES {
        names.add(alloc, name, variable(0, global, changes, ty))?;
    }
    Ok(())
}

fn add_methods(alloc: Global, names: &mut NameMap<Meaning>) -> Result<(), Fail> {
    for &(name, numbers, global) in &METHODS {
        names.add(alloc, name, method(alloc, 0, numbers, global)?)?;
    }
    Ok(())
}

/// All names, and `P` of a record with one field `f`, which is a number.
fn names(alloc: Global) -> Result<NameMap<Meaning>, Fail> {
    let mut names = NameMap::new(alloc);
    add_variables(alloc, &mut names)?;
    add_methods(alloc, &mut names)?;
    names.add(alloc, "P", Meaning::Record(0))?;
    Ok(names)
}

fn covered(alloc: Global) -> Result<NameMap<()>, Fail> {
    let mut covered = NameMap::new(alloc);
    for &name in &COVERED {
        covered.add(alloc, name, ())?;
    }
    Ok(covered)
}

fn records(alloc: Global) -> Result<Items<RecordFields>, Fail> {
    let mut by_name = NameMap::new(alloc);
    by_name.add(alloc, "f", Some(TextType::Z))?;
    let types = Items::from_slice(alloc, &[TextType::Z])?;
    let mut records = Items::new(alloc);
    records.push(RecordFields {
        types: Some(types),
        by_name,
    })?;
    Ok(records)
}

pub(crate) fn scope(alloc: Global) -> Result<NameScope, Fail> {
    let names = names(alloc)?;
    let records = records(alloc)?;
    let covered = covered(alloc)?;
    Ok(NameScope {
        names,
        records,
        covered,
        outside: Items::new(alloc),
        locals: 4,
        depth: 0,
    })
}
