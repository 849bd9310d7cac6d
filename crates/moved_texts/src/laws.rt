ghost use Rattle.moved_texts.specs.Moved.{PlacesMayMove};

/// Tokens that are those of a text, but for their places, are a text with the same tree, but for its places.
pub fn places_may_move()
    ensures { PlacesMayMove }
{}
