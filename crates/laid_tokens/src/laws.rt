ghost use Rattle.laid_tokens.specs.Laws.{LaidPiecesHaveTheirTokens};

/// Tokens that are laid out as they may stand beside each other are, but for their places, the tokens of their bytes.
pub fn laid_pieces_have_their_tokens()
    ensures { LaidPiecesHaveTheirTokens }
{}
