use slang_tree::Text;
use sqlite_items::Items;
use text_types::TextType;

/// The types of a method's parameters, and of its result.
#[derive(Drop)]
pub struct Signature {
    pub params: Items<TextType>,
    pub result: TextType,
}

/// A method by its number, with the names that its Modifies has. It has a signature where all its types are without fault.
#[derive(Drop)]
pub struct Method {
    pub number: u32,
    pub signature: Option<Signature>,
    pub modifies: Items<Text>,
}

/// What a name means. It has no type where what is written for the type has a fault.
#[derive(Drop)]
pub enum Meaning {
    /// A parameter, a `val` or a `var` of a method, by its number. A `var` may be assigned.
    Local {
        number: u32,
        changes: bool,
        ty: Option<TextType>,
    },
    Global {
        number: u32,
        changes: bool,
        ty: Option<TextType>,
    },
    /// The variable of a quantifier, by how many quantifiers stand around that one.
    Bound(u32),
    /// The variable of a block of a proof, by the label of the block.
    Block(u32),
    /// A record, by its number.
    Record(u32),
    Method(Method),
}

impl Meaning {
    ghost use Rattle.std.specs.Prelude.{◌≡◌};
    ghost use Rattle.std.specs.Option.{option_map};
    ghost use Rattle.type_rules.specs.Meanings as rule;
    ghost use Rattle.type_rules.specs.Expressions as typing;
    ghost use Rattle.text_types.specs.TextType.{text_value};
    ghost use Rattle.name_scopes.specs.Meanings.{meant};

    /// Whether it is a `var`, of the method or among the globals.
    pub fn is_var(&self) -> bool
        ensures { result ≡ rule.is_var (meant self.now) }
    {
        match self {
            Meaning::Local { changes, .. } | Meaning::Global { changes, .. } => *changes,
            _ => false,
        }
    }

    /// Whether it is a `var` among the globals.
    pub fn is_global_var(&self) -> bool
        ensures { result ≡ rule.is_global_var (meant self.now) }
    {
        match self {
            Meaning::Global { changes, .. } => *changes,
            _ => false,
        }
    }

    /// Whether it is a variable.
    pub fn is_variable(&self) -> bool
        ensures { result ≡ typing.is_variable (meant self.now) }
    {
        !matches!(self, Meaning::Record(_) | Meaning::Method(_))
    }

    /// The type of a variable.
    pub fn ty(&self) -> Option<TextType>
        ensures { option_map text_value result ≡ typing.type_meant (meant self.now) }
    {
        match self {
            Meaning::Local { ty, .. } | Meaning::Global { ty, .. } => *ty,
            Meaning::Bound(_) | Meaning::Block(_) => Some(TextType::Z),
            Meaning::Record(_) | Meaning::Method(_) => None,
        }
    }
}
