ghost use Rattle.print_layout.specs.Laws.{LayoutHasTheTokens};

/// The tokens of a file that is laid out are those of its account.
pub fn layout_has_the_tokens()
    ensures { LayoutHasTheTokens }
{}
