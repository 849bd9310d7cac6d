ghost use Rattle.std.specs.Prelude.{◌≡◌, MatchOption, false};
ghost use Rattle.std.specs.Option.{is_some};
ghost use Rattle.slang_values.specs.Value.{element_type, same_type, is_element_type};
ghost use Rattle.type_rules.specs.Judged.{is_sequence};
ghost use Rattle.text_types.specs.TextType.{element_value, text_value};

/// The type of the elements of a sequence. A record is named by its number.
#[derive(Clone, Copy, Debug)]
pub enum ElementType {
    Z,
    B,
    Record(u32),
}

/// A type that a text can name: the elements of a sequence are no sequences.
#[derive(Clone, Copy, Debug)]
pub enum TextType {
    Unit,
    Z,
    B,
    Record(u32),
    Sequence(ElementType),
}

impl ElementType {
    /// The type of an element.
    pub fn text_type(self) -> TextType
        ensures { text_value result ≡ element_value self }
    {
        match self {
            ElementType::Z => TextType::Z,
            ElementType::B => TextType::B,
            ElementType::Record(number) => TextType::Record(number),
        }
    }

    fn same(self, other: ElementType) -> bool
        ensures { result ≡ same_type (element_value self) (element_value other) }
    {
        match (self, other) {
            (ElementType::Z, ElementType::Z) | (ElementType::B, ElementType::B) => true,
            (ElementType::Record(m), ElementType::Record(n)) => m == n,
            _ => false,
        }
    }
}

impl TextType {
    /// Whether two types are the same.
    pub fn same(self, other: TextType) -> bool
        ensures { result ≡ same_type (text_value self) (text_value other) }
    {
        match (self, other) {
            (TextType::Unit, TextType::Unit)
            | (TextType::Z, TextType::Z)
            | (TextType::B, TextType::B) => true,
            (TextType::Record(m), TextType::Record(n)) => m == n,
            (TextType::Sequence(s), TextType::Sequence(t)) => s.same(t),
            _ => false,
        }
    }

    pub fn is_sequence(self) -> bool
        ensures { result ≡ is_sequence (text_value self) }
    {
        matches!(self, TextType::Sequence(_))
    }

    /// The type of the elements. That of what is no sequence is `Unit`.
    pub fn element(self) -> TextType
        ensures { text_value result ≡ element_type (text_value self) }
    {
        match self {
            TextType::Sequence(element) => element.text_type(),
            _ => TextType::Unit,
        }
    }

    /// The type as one of elements, where a sequence may have such elements.
    pub fn as_element(self) -> Option<ElementType>
        ensures element { MatchOption result (is_element_type (text_value self) ≡ false) (λ element. element_value element ≡ text_value self) }
        ensures some { is_some result ≡ is_element_type (text_value self) }
    {
        match self {
            TextType::Z => Some(ElementType::Z),
            TextType::B => Some(ElementType::B),
            TextType::Record(number) => Some(ElementType::Record(number)),
            TextType::Unit | TextType::Sequence(_) => None,
        }
    }
}
