ghost use Rattle.std.specs.Prelude.{◌≡◌, ◌+◌, ◌-◌, ◌^◌, min, max};

/// How large a term is. Both numbers stop at the greatest u32.
#[derive(Clone, Copy)]
pub struct Measure {
    pub nodes: u32,
    pub height: u32,
}

impl Measure {
    pub(crate) const NOTHING: Measure = Measure {
        nodes: 0,
        height: 0,
    };

    /// Of several parts, those of `self` and `other`.
    pub(crate) fn beside(self, other: Measure) -> Measure
        ensures nodes { result.nodes ≡ min (self.nodes + other.nodes) (2 ^ 32 - 1) }
        ensures height { result.height ≡ max self.height other.height }
    {
        Measure {
            nodes: self.nodes.saturating_add(other.nodes),
            height: self.height.max(other.height),
        }
    }

    /// Of a node over the parts.
    pub(crate) fn above(self) -> Measure
        ensures nodes { result.nodes ≡ min (self.nodes + 1) (2 ^ 32 - 1) }
        ensures height { result.height ≡ min (self.height + 1) (2 ^ 32 - 1) }
    {
        Measure {
            nodes: self.nodes.saturating_add(1),
            height: self.height.saturating_add(1),
        }
    }
}
