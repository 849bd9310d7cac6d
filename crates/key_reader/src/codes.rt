ghost use Rattle.std.specs.Prelude.{◌≡◌, ℕ};
ghost use Rattle.std.specs.Option.{option_map};
ghost use Rattle.key_reader.specs.Heads.{flag_coded, item_head_coded, item_head_data, kind_coded, step_head_coded, step_head_data};

use program_trees::Kind;

/// What a step begins with.
#[derive(Clone, Copy)]
pub(crate) enum StepHead {
    Line,
    Block,
}

/// What an item begins with.
#[derive(Clone, Copy)]
pub(crate) enum ItemHead {
    Assume,
    Check,
    Set,
    Fresh,
    Proof,
}

/// The beginning of a step with this byte.
pub(crate) fn step_head(byte: u8) -> Option<StepHead>
    ensures { option_map step_head_data result ≡ step_head_coded byte }
{
    match byte {
        0 => Some(StepHead::Line),
        1 => Some(StepHead::Block),
        _ => None,
    }
}

/// Whether a block has a symbol, by this byte.
pub(crate) fn flag(byte: u8) -> Option<bool>
    ensures { result ≡ flag_coded byte }
{
    match byte {
        0 => Some(false),
        1 => Some(true),
        _ => None,
    }
}

/// The beginning of an item with this byte.
pub(crate) fn item_head(byte: u8) -> Option<ItemHead>
    ensures { option_map item_head_data result ≡ item_head_coded byte }
{
    match byte {
        0 => Some(ItemHead::Assume),
        1 => Some(ItemHead::Check),
        2 => Some(ItemHead::Set),
        3 => Some(ItemHead::Fresh),
        4 => Some(ItemHead::Proof),
        _ => None,
    }
}

/// What a check is made for, by this byte.
pub(crate) fn kind(byte: u8) -> Option<Kind>
    ensures { result ≡ kind_coded byte }
{
    match byte {
        0 => Some(Kind::Assert),
        1 => Some(Kind::Requires),
        2 => Some(Kind::Ensures),
        3 => Some(Kind::InvStart),
        4 => Some(Kind::InvKept),
        5 => Some(Kind::Index),
        6 => Some(Kind::Division),
        _ => None,
    }
}
