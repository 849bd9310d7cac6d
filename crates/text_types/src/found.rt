ghost use Rattle.std.specs.Prelude.{◌≡◌, [], ◌∷◌};
ghost use Rattle.type_rules.specs.Faults.{fault};
ghost use Rattle.type_rules.specs.Judged.{known_type, well, untyped};
ghost use Rattle.text_types.specs.TextType.{text_value};
ghost use Rattle.text_types.specs.Found.{IsJudged, seen};

use crate::text_type::TextType;
use slang_tree::{Fault, Place};
use type_faults::FirstFault;

/// What is found at a part of a text: its place, and its type, where it has one.
#[derive(Clone, Copy, Debug)]
pub struct Found {
    pub place: Place,
    pub ty: Option<TextType>,
}

impl Found {
    /// A part of this type.
    pub fn well(place: Place, ty: TextType) -> Found
        ensures { seen result ≡ well place (text_value ty) }
    {
        Found {
            place,
            ty: Some(ty),
        }
    }

    /// A part that has no type.
    pub fn untyped(place: Place) -> Found
        ensures { seen result ≡ untyped place [] }
    {
        Found { place, ty: None }
    }

    /// A part of which one fault is told, at a place of its own, and which has no type.
    pub fn faulty(told: &mut FirstFault, place: Place, code: u8, at: Place) -> Found
        ensures { IsJudged told.old.found told.new.found result (untyped place (fault code at ∷ [])) }
    {
        told.tell(Fault { code, place: at });
        Found::untyped(place)
    }

    /// The type of a part that has one.
    pub fn known(self) -> TextType
        ensures { text_value result ≡ known_type (seen self) }
    {
        self.ty.unwrap_or(TextType::Unit)
    }
}
