ghost use Rattle.std.specs.Prelude.{◌≡◌, map, option_copied};
ghost use Rattle.std.specs.Option.{option_map, option_map_or, is_some};
ghost use Rattle.type_rules.specs.Meanings as rule;
ghost use Rattle.type_rules.specs.Meanings.{Scope};
ghost use Rattle.type_rules.specs.Expressions.{field_named};
ghost use Rattle.text_types.specs.TextType.{text_value};
ghost use Rattle.name_scopes.specs.Meanings.{declared_in, meant};
ghost use Rattle.name_scopes.specs.Fits.{Fits, may_change};

use crate::meaning::Meaning;
use crate::scope::NameScope;
use slang_tree::Text;
use text_types::TextType;

impl NameScope {
    /// What a name means.
    pub fn meaning(&self, name: &str) -> Option<&Meaning>
        ensures names { option_map meant (option_copied result) ≡ rule.meaning_among (declared_in self.now.names) name.now }
        ensures fits { (scope : Scope) → Fits self.now scope → option_map meant (option_copied result) ≡ rule.meaning_of scope name.now }
    {
        self.names.find(name)
    }

    /// Whether the name means anything.
    pub fn is_known(&self, name: &str) -> bool
        ensures { (scope : Scope) → Fits self.now scope → result ≡ rule.is_known scope name.now }
    {
        self.meaning(name).is_some()
    }

    /// The type of a field, by the number of its record and by its name.
    pub fn field(&self, number: u32, name: &str) -> Option<Option<TextType>>
        ensures { (scope : Scope) → Fits self.now scope
            → option_map (option_map text_value) result ≡ option_map (λ f. f.type) (field_named scope number name.now) }
    {
        let record = self.records.get(number as usize)?;
        let ty = record.by_name.find(name)?;
        Some(*ty)
    }

    /// The types of the fields of a record, where none has a fault.
    pub fn field_types(&self, number: u32) -> Option<&[TextType]>
        ensures { (scope : Scope) → Fits self.now scope
            → option_map (λ types. map text_value types.now) result ≡ rule.field_types scope number }
    {
        match self.records.get(number as usize) {
            None => Some(&[]),
            Some(record) => match &record.types {
                None => None,
                Some(types) => Some(types.as_slice()),
            },
        }
    }

    /// Whether what is written for the types of the name has no fault.
    pub fn is_well_declared(&self, meaning: &Meaning) -> bool
        ensures { (scope : Scope) → Fits self.now scope → result ≡ rule.is_well_declared scope (meant meaning.now) }
    {
        match meaning {
            Meaning::Local { ty, .. } | Meaning::Global { ty, .. } => ty.is_some(),
            Meaning::Bound(_) | Meaning::Block(_) => true,
            Meaning::Record(number) => self.field_types(*number).is_some(),
            Meaning::Method(method) => method.signature.is_some(),
        }
    }

    /// Whether a variable of this name may be changed.
    pub fn covers(&self, name: &str) -> bool
        ensures { (scope : Scope) → Fits self.now scope → result ≡ scope.covers name.now }
    {
        self.covered.contains(name)
    }

    /// Whether the name is that of a `var` among the globals.
    fn names_global_var(&self, name: &str) -> bool
        ensures { (scope : Scope) → Fits self.now scope → result ≡ rule.names_global_var scope name.now }
    {
        match self.meaning(name) {
            None => false,
            Some(meaning) => meaning.is_global_var(),
        }
    }

    /// Whether a variable of this name may be changed, if it is a global.
    fn may_change(&self, name: &str) -> bool
        ensures { (scope : Scope) → Fits self.now scope → result ≡ may_change scope name.now }
    {
        !self.names_global_var(name) || self.covers(name)
    }

    /// Whether all `var`s among the globals that these names name may be changed.
    pub fn covers_all(&self, modifies: &[Text]) -> bool
        ensures { (scope : Scope) → Fits self.now scope → result ≡ rule.covers_all scope modifies.now }
    {
        for name in modifies {
            if !self.may_change(name.as_str()) {
                return false;
            }
        }
        true
    }
}
