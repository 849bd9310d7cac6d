use crate::meaning::Meaning;
use name_maps::NameMap;
use sqlite_items::Items;
use text_types::TextType;

/// The fields of a record: their types in order, where none has a fault, and the type of each by its name.
#[derive(Drop)]
pub struct RecordFields {
    pub types: Option<Items<TextType>>,
    pub by_name: NameMap<Option<TextType>>,
}

/// A place of the text.
#[derive(Drop)]
pub struct NameScope {
    /// What has a name there.
    pub names: NameMap<Meaning>,
    /// The fields of each record.
    pub records: Items<RecordFields>,
    /// The names of the variables that may be changed.
    pub covered: NameMap<()>,
    /// The names that may be changed outside of each loop around the place.
    pub outside: Items<NameMap<()>>,
    /// How many locals were declared before.
    pub locals: u32,
    /// How many quantifiers stand around.
    pub depth: u32,
}
