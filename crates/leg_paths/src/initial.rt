ghost use Rattle.std.specs.Prelude.{◌≡◌, ◌&&◌, ◌++◌, IfOk, OnOk};
ghost use Rattle.leg_rules.specs.LegNames.{same_name};
ghost use Rattle.leg_rules.specs.Mentions.{leg_mentions};
ghost use Rattle.leg_items.specs.Names.{leg_name};
ghost use Rattle.leg_items.specs.Drafts.{items_of};
ghost use Rattle.leg_paths.specs.Initial.{all_fixed, one_fixed};

use crate::NoMemory;
use call_items::number;
use leg_items::{Draft, DraftItem, Frame, MethodVariable, Name, Scope, claim_of};
use leg_mentions::drafts_mention;
use lk_programs::{Global as ProgramGlobal, NodeNo};
use sqlite_items::Items;
use std::alloc::Global;

/// Whether a global is a `val` that the items mention.
fn is_due(global: &ProgramGlobal, drafts: &[DraftItem], name: Name) -> bool
    ensures { result ≡ (global.now.fixed && leg_mentions (same_name (leg_name name)) (items_of drafts.now)) }
{
    global.fixed && drafts_mention(drafts, name)
}

/// Adds that a global `val` has its initial value, where the items mention it.
fn add_fixed(
    alloc: Global,
    scope: Scope,
    node: NodeNo,
    drafts: &[DraftItem],
    number: u32,
    global: &ProgramGlobal,
    out: &mut Items<DraftItem>,
) -> Result<(), NoMemory>
    ensures { OnOk result (items_of out.new ≡ items_of out.old ++ one_fixed scope node.0 (items_of drafts.now) number global.now) }
{
    let name = Name::Own(MethodVariable::Global(number));
    if !is_due(global, drafts, name) {
        return Ok(());
    }
    let claim = claim_of(alloc, &global.init)?;
    out.push(DraftItem {
        draft: Draft::Set(name, Frame::Own(scope), claim),
        node,
    })
}

/// Adds the initial value of each global `val` that the items mention.
fn add_all_fixed(
    alloc: Global,
    scope: Scope,
    node: NodeNo,
    drafts: &[DraftItem],
    globals: &[ProgramGlobal],
    out: &mut Items<DraftItem>,
) -> Result<(), NoMemory>
    ensures { OnOk result (items_of out.new ≡ items_of out.old ++ all_fixed scope node.0 (items_of drafts.now) 0 globals.now) }
{
    for place in 0..globals.len() {
        add_fixed(
            alloc,
            scope,
            node,
            drafts,
            number(place)?,
            &globals[place],
            out,
        )?;
    }
    Ok(())
}

/// The items behind the initial value of each global `val` that they mention.
pub fn with_initial_values(
    alloc: Global,
    scope: Scope,
    node: NodeNo,
    globals: &[ProgramGlobal],
    drafts: Items<DraftItem>,
) -> Result<Items<DraftItem>, NoMemory>
    ensures { IfOk result (λ items. items_of items ≡ all_fixed scope node.0 (items_of drafts) 0 globals.now ++ items_of drafts) }
{
    let mut items = Items::new(alloc);
    add_all_fixed(alloc, scope, node, drafts.as_slice(), globals, &mut items)?;
    items.append(drafts)?;
    Ok(items)
}
