ghost use Rattle.item_checks.specs.Laws.{ItemsAreTested};

/// Items pass exactly where they are well typed and well formed.
pub fn items_are_tested()
    ensures { ItemsAreTested }
{}
