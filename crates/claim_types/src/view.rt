ghost use Rattle.std.specs.Prelude.{◌≡◌};
ghost use Rattle.slang_values.specs.Value.{same_type};
ghost use Rattle.lk_claims.specs.Claim.{value_type};
ghost use Rattle.claim_types.specs.Views.{view_type};

use lk_claims::Ty;

/// A type, as it is at its top.
#[derive(Clone, Copy)]
pub enum TypeView<'a> {
    Unit,
    Number,
    Truth,
    /// Of elements of that type.
    Sequence(&'a Ty),
    Record(u32),
}

/// Whether two types are the same.
#[tactic(auto, using(lk_claims::proofs::Types::type_lines))]
fn are_same(a: &Ty, b: &Ty) -> bool
    ensures { result ≡ same_type (value_type a.now) (value_type b.now) }
{
    match a {
        Ty::Unit => match b {
            Ty::Unit => true,
            Ty::Z => false,
            Ty::B => false,
            Ty::Seq(_) => false,
            Ty::Rec(_) => false,
        },
        Ty::Z => match b {
            Ty::Unit => false,
            Ty::Z => true,
            Ty::B => false,
            Ty::Seq(_) => false,
            Ty::Rec(_) => false,
        },
        Ty::B => match b {
            Ty::Unit => false,
            Ty::Z => false,
            Ty::B => true,
            Ty::Seq(_) => false,
            Ty::Rec(_) => false,
        },
        Ty::Seq(s) => match b {
            Ty::Unit => false,
            Ty::Z => false,
            Ty::B => false,
            Ty::Seq(t) => are_same(s.get(), t.get()),
            Ty::Rec(_) => false,
        },
        Ty::Rec(m) => match b {
            Ty::Unit => false,
            Ty::Z => false,
            Ty::B => false,
            Ty::Seq(_) => false,
            Ty::Rec(n) => m == n,
        },
    }
}

impl<'a> TypeView<'a> {
    #[tactic(auto, using(lk_claims::proofs::Types::type_lines))]
    pub fn new(ty: &'a Ty) -> TypeView<'a>
        ensures { view_type result ≡ value_type ty.now }
    {
        match ty {
            Ty::Unit => TypeView::Unit,
            Ty::Z => TypeView::Number,
            Ty::B => TypeView::Truth,
            Ty::Seq(element) => TypeView::Sequence(element.get()),
            Ty::Rec(number) => TypeView::Record(*number),
        }
    }

    /// Whether two types are the same.
    pub fn is_same(self, other: TypeView<'_>) -> bool
        ensures { result ≡ same_type (view_type self.entry) (view_type other.entry) }
    {
        match self {
            TypeView::Unit => match other {
                TypeView::Unit => true,
                TypeView::Number => false,
                TypeView::Truth => false,
                TypeView::Sequence(_) => false,
                TypeView::Record(_) => false,
            },
            TypeView::Number => match other {
                TypeView::Unit => false,
                TypeView::Number => true,
                TypeView::Truth => false,
                TypeView::Sequence(_) => false,
                TypeView::Record(_) => false,
            },
            TypeView::Truth => match other {
                TypeView::Unit => false,
                TypeView::Number => false,
                TypeView::Truth => true,
                TypeView::Sequence(_) => false,
                TypeView::Record(_) => false,
            },
            TypeView::Sequence(s) => match other {
                TypeView::Unit => false,
                TypeView::Number => false,
                TypeView::Truth => false,
                TypeView::Sequence(t) => are_same(s, t),
                TypeView::Record(_) => false,
            },
            TypeView::Record(m) => match other {
                TypeView::Unit => false,
                TypeView::Number => false,
                TypeView::Truth => false,
                TypeView::Sequence(_) => false,
                TypeView::Record(n) => m == n,
            },
        }
    }
}
