ghost use Rattle.std.specs.Prelude.{◌≡◌, ◌<◌, ◌^◌, [], ◌∷◌, ◌++◌, OnOk, if◌then◌else◌};
ghost use Rattle.std.specs.Result.{OkIff};
ghost use Rattle.program_trees.specs.Variables.{entry, same_variable};
ghost use Rattle.leg_rules.specs.Legs.{entry_items};
ghost use Rattle.leg_rules.specs.Mentions.{some_mention};
ghost use Rattle.leg_items.specs.Names.{leg_name, variable_data};
ghost use Rattle.leg_items.specs.Drafts.{items_of};
ghost use Rattle.call_items.specs.Frames.{claims_in, entries_among, frame_scope, frame_variable};

use crate::NoMemory;
use leg_items::{DraftItem, Frame, MethodVariable, Name, Scope, add_variable};
use leg_mentions::some_noted_mentions;
use lk_programs::{NodeNo, Noted};
use sqlite_items::Items;
use std::alloc::AllocError;

/// A place in a list as a number, where there is one.
pub fn number(count: usize) -> Result<u32, NoMemory>
    ensures { OkIff result (count < 2 ^ 32) count }
{
    u32::try_from(count).map_err(|_| AllocError)
}

fn scope_of(frame: Frame) -> Scope
    ensures { result ≡ frame_scope frame }
{
    match frame {
        Frame::Own(scope) => scope,
        Frame::Call(_, _, scope) => scope,
    }
}

/// The variable of the frame's own method.
fn own_variable(frame: Frame, variable: MethodVariable) -> Name
    ensures { leg_name result ≡ frame_variable frame (variable_data variable) }
{
    match frame {
        Frame::Own(_) => Name::Own(variable),
        Frame::Call(node, method, _) => Name::OfCall(node, method, variable),
    }
}

/// Adds that the entry value of a global is what the global is now, where the claims name it.
fn add_entry(
    frame: Frame,
    node: NodeNo,
    global: u32,
    claims: &[Noted],
    out: &mut Items<DraftItem>,
) -> Result<(), NoMemory>
    ensures { OnOk result (items_of out.new ≡ items_of out.old ++ entry_items node.0 (λ g. frame_variable frame (entry g))
        (if some_mention (same_variable (entry global)) (claims_in (frame_scope frame) claims.now) then global ∷ [] else [])) }
{
    let name = own_variable(frame, MethodVariable::Entry(global));
    if !some_noted_mentions(claims, frame, name) {
        return Ok(());
    }
    add_variable(node, name, Name::Own(MethodVariable::Global(global)), out)
}

/// Adds, for each global whose entry value the claims name, that this is what the global is now.
pub fn add_entries(
    frame: Frame,
    node: NodeNo,
    claims: &[Noted],
    out: &mut Items<DraftItem>,
) -> Result<(), NoMemory>
    ensures { OnOk result (items_of out.new ≡ items_of out.old
        ++ entry_items node.0 (λ g. frame_variable frame (entry g)) (entries_among (frame_scope frame).globals (claims_in (frame_scope frame) claims.now))) }
{
    let globals = scope_of(frame).globals;
    for global in 0..globals {
        add_entry(frame, node, number(global)?, claims, out)?;
    }
    Ok(())
}
