ghost use Rattle.std.specs.Prelude.{◌≡◌, ◌∷◌, ◌++◌, [], IfOk, List, OnOk, None, false, length, map, take};
ghost use Rattle.slang_tree.specs.DeclTree.{method_decl_tree, param_tree};
ghost use Rattle.type_rules.specs.Judged.{faults_of};
ghost use Rattle.type_rules.specs.Meanings.{Declared};
ghost use Rattle.type_rules.specs.TypeNames.{judged_type};
ghost use Rattle.type_rules.specs.Projects as rule;
ghost use Rattle.type_faults.specs.FirstFault.{with_first};
ghost use Rattle.text_types.specs.Found.{AreJudged, IsJudged, bare, seen};
ghost use Rattle.name_maps.specs.Names.{with_name};
ghost use Rattle.name_scopes.specs.declared.meaning.Meaning.TheVariants as m;
ghost use Rattle.signature_judging.specs.Knows.{AreHeaderTypes, Knows};

use crate::NoMemory;
use name_scopes::{Meaning, NameScope};
use slang_tree::{MethodDecl, Param};
use sqlite_items::Items;
use std::alloc::Global;
use text_types::Found;
use type_faults::FirstFault;
use type_names::{result_type, variable_type};

/// The type of a parameter, which is a known name from then on.
fn param_type(
    alloc: Global,
    outline: &mut NameScope,
    told: &mut FirstFault,
    param: &Param,
) -> Result<Found, NoMemory>
    ensures judged { IfOk result (λ found. (names : List Declared) → Knows outline.old.names names
        → IsJudged told.old.found told.new.found found (judged_type names (param_tree param.now).ty)) }
    ensures known { OnOk result (outline.new ≡ record outline.old { names = with_name outline.old.names param.now.name.text (m.Global 0 false None) }) }
{
    let found = variable_type(outline, told, &param.ty);
    let meaning = Meaning::Global {
        number: 0,
        changes: false,
        ty: None,
    };
    outline.names.add(alloc, param.name.text.as_str(), meaning)?;
    Ok(found)
}

/// The type of each parameter, which are known names from then on.
fn param_types(
    alloc: Global,
    outline: &mut NameScope,
    told: &mut FirstFault,
    params: &[Param],
) -> Result<Items<Found>, NoMemory>
    ensures judged { IfOk result (λ founds. (names : List Declared) → Knows outline.old.names names
        → AreJudged told.old.found told.new.found founds (rule.param_types names (map param_tree params.now))) }
    ensures known { OnOk result ((names : List Declared) → Knows outline.old.names names → Knows outline.new.names (rule.names_with names (map param_tree params.now))) }
    ensures back { OnOk result (record outline.new { names = take (length outline.old.names) outline.new.names } ≡ outline.old) }
{
    let mut founds = Items::new(alloc);
    for param in params {
        let found = param_type(alloc, outline, told, param)?;
        founds.push(found)?;
    }
    Ok(founds)
}

/// The types of a method's parameters, and of its result.
pub fn header_types(
    alloc: Global,
    outline: &mut NameScope,
    told: &mut FirstFault,
    decl: &MethodDecl,
) -> Result<(Items<Found>, Found), NoMemory>
    ensures judged { IfOk result (λ types. (names : List Declared) → Knows outline.old.names names
        → AreHeaderTypes told.old.found told.new.found types.0 types.1 names (method_decl_tree decl.now)) }
    ensures scope { OnOk result (outline.new ≡ outline.old) }
{
    let names = outline.names.len();
    let params = param_types(alloc, outline, told, decl.params.as_slice())?;
    let result_found = result_type(outline, told, &decl.result);
    outline.close_block(names);
    Ok((params, result_found))
}
