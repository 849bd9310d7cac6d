ghost use Rattle.std.specs.Prelude.{◌≡◌, [], ◌∷◌, None, if◌then◌else◌};
ghost use Rattle.type_rules.specs.Faults.{comes_before, unless};
ghost use Rattle.type_faults.specs.FirstFault.{told_of, with_first};

use slang_tree::Fault;

/// The first of the faults so far: the one of least place, and of those the one of least code.
#[derive(Clone, Copy, Debug)]
pub struct FirstFault {
    pub found: Option<Fault>,
}

impl FirstFault {
    /// No fault yet.
    pub fn none() -> FirstFault
        ensures { result.found ≡ None }
    {
        FirstFault { found: None }
    }

    /// One fault more.
    pub fn tell(&mut self, fault: Fault)
        ensures { self.new.found ≡ with_first self.old.found (fault ∷ []) }
    {
        self.found = Some(first_of(self.found, fault));
    }

    /// One fault more, where this does not hold.
    pub fn tell_unless(&mut self, holds: bool, fault: Fault)
        ensures { self.new.found ≡ with_first self.old.found (unless holds fault) }
    {
        if !holds {
            self.tell(fault);
        }
    }

    /// The faults of others, of which this is the first.
    pub fn tell_first(&mut self, others: FirstFault)
        ensures { self.new.found ≡ with_first self.old.found (told_of others.found) }
    {
        if let Some(fault) = others.found {
            self.tell(fault);
        }
    }
}

/// The first of two faults, where there may be only the second.
fn first_of(found: Option<Fault>, next: Fault) -> Fault
    ensures { with_first found (next ∷ []) ≡ Some result }
{
    match found {
        None => next,
        Some(found) => earlier(found, next),
    }
}

fn earlier(found: Fault, next: Fault) -> Fault
    ensures { result ≡ (if comes_before next found then next else found) }
{
    if comes_before(&next, &found) {
        next
    } else {
        found
    }
}

fn comes_before(a: &Fault, b: &Fault) -> bool
    ensures { result ≡ comes_before a.now b.now }
{
    let code = a.code.cmp(&b.code);
    let column = a.place.col.cmp(&b.place.col);
    let line = a.place.line.cmp(&b.place.line);
    line.then(column.then(code)).is_lt()
}
