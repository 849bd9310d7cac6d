ghost use Rattle.std.specs.Prelude.{◌≡◌, IfOk, IsTrue, ◌↔◌};

use crate::NoMemory;
use sqlite_items::Boxed;
use std::alloc::Global;

/// A type. A record is named by its number.
#[derive(Drop)]
pub enum Ty {
    Unit,
    Z,
    B,
    /// A sequence of elements of that type.
    Seq(Boxed<Ty>),
    Rec(u32),
}

impl Ty {
    /// The same type.
    pub fn copy(&self, alloc: Global) -> Result<Ty, NoMemory>
        ensures { IfOk result (λ t. t ≡ self.now) }
    {
        match self {
            Ty::Unit => Ok(Ty::Unit),
            Ty::Z => Ok(Ty::Z),
            Ty::B => Ok(Ty::B),
            Ty::Seq(t) => Ok(Ty::Seq(Boxed::new(alloc, t.get().copy(alloc)?)?)),
            Ty::Rec(n) => Ok(Ty::Rec(*n)),
        }
    }

    /// Whether two types are the same.
    pub fn same(&self, other: &Ty) -> bool
        ensures { IsTrue result ↔ (self.now ≡ other.now) }
    {
        match (self, other) {
            (Ty::Unit, Ty::Unit) | (Ty::Z, Ty::Z) | (Ty::B, Ty::B) => true,
            (Ty::Seq(t), Ty::Seq(u)) => t.get().same(u.get()),
            (Ty::Rec(m), Ty::Rec(n)) => m == n,
            _ => false,
        }
    }
}
