//! Tokens, their kinds, and what stands in the place of one.

/// What a token is. Each sign and each word has a kind of its own.
#[derive(Clone, Copy, Debug, PartialEq, Eq)]
pub enum TokenKind {
    /// The end of the text.
    End,
    /// A letter or `_`, and what may follow in a name. No word of the language.
    Name,
    /// Decimal digits.
    Number,
    Newline,
    // Signs.
    LeftParen,
    RightParen,
    LeftBracket,
    RightBracket,
    LeftBrace,
    RightBrace,
    Comma,
    Semicolon,
    Colon,
    Dot,
    /// `=`
    Equals,
    /// `=>`
    FatArrow,
    At,
    /// `~>`
    TildeArrow,
    /// `==`
    DoubleEquals,
    NotEquals,
    Less,
    LessOrEqual,
    Greater,
    GreaterOrEqual,
    Plus,
    Minus,
    Star,
    Slash,
    Percent,
    Ampersand,
    DoubleAmpersand,
    Bar,
    DoubleBar,
    Bang,
    /// `->:`
    DashArrow,
    /// `-->:`
    LongDashArrow,
    /// `__>:`
    LowArrow,
    /// `___>:`
    LongLowArrow,
    /// `:+`
    ColonPlus,
    /// `|-`
    Turnstile,
    /// `∀`
    ForAllSign,
    /// `∃`
    ExistsSign,
    /// `Subst_<`
    SubstLess,
    /// `Subst_>`
    SubstGreater,
    // Words.
    Val,
    Var,
    Def,
    Class,
    Import,
    If,
    Else,
    While,
    Return,
    Assert,
    Deduce,
    Contract,
    Requires,
    Modifies,
    Ensures,
    Invariant,
    By,
    SubProof,
    Assume,
    Let,
    Proof,
    All,
    Exists,
    Res,
    In,
    Old,
    /// `T`
    True,
    /// `F`
    False,
    /// `Z`
    TypeZ,
    /// `B`
    TypeB,
    /// `Unit`
    TypeUnit,
    /// `ISZ`
    TypeIsz,
    Until,
    // Words of Scala and Slang that the language leaves out.
    LeftOutMatch,
    LeftOutFor,
    LeftOutObject,
    LeftOutTrait,
    LeftOutAbstract,
    LeftOutSealed,
    LeftOutCase,
    LeftOutType,
    LeftOutLazy,
    LeftOutDo,
    LeftOutTry,
    LeftOutThrow,
    LeftOutNew,
    LeftOutThis,
    LeftOutSuper,
    LeftOutAssume,
    LeftOutHalt,
    LeftOutYield,
    LeftOutOverride,
    LeftOutExtends,
    LeftOutPackage,
    LeftOutEnum,
}

impl TokenKind {
    ghost use Rattle.std.specs.Prelude.{◌≡◌};
    ghost use Rattle.slang_lexer.specs.Statement.{ends_statement, begins_statement, is_left_out};

    /// Whether a statement can end with such a token.
    #[tactic(auto, unfolding(crate::specs::Statement::ends_statement))]
    pub fn ends_statement(self) -> bool
        ensures { result ≡ ends_statement self }
    {
        matches!(
            self,
            TokenKind::Name
                | TokenKind::Number
                | TokenKind::True
                | TokenKind::False
                | TokenKind::TypeZ
                | TokenKind::TypeB
                | TokenKind::TypeUnit
                | TokenKind::TypeIsz
                | TokenKind::Res
                | TokenKind::RightParen
                | TokenKind::RightBracket
                | TokenKind::RightBrace
        )
    }

    /// Whether a statement can begin with such a token.
    #[tactic(auto, unfolding(crate::specs::Statement::begins_statement))]
    pub fn begins_statement(self) -> bool
        ensures { result ≡ begins_statement self }
    {
        match self {
            TokenKind::Else
            | TokenKind::By
            | TokenKind::Comma
            | TokenKind::Dot
            | TokenKind::Semicolon
            | TokenKind::Colon
            | TokenKind::Equals
            | TokenKind::FatArrow
            | TokenKind::LeftBracket
            | TokenKind::RightParen
            | TokenKind::RightBracket
            | TokenKind::RightBrace => false,
            _ => true,
        }
    }

    /// Whether the token is a word that the language leaves out.
    #[tactic(auto, unfolding(crate::specs::Statement::is_left_out))]
    pub fn is_left_out(self) -> bool
        ensures { result ≡ is_left_out self }
    {
        matches!(
            self,
            TokenKind::LeftOutMatch
                | TokenKind::LeftOutFor
                | TokenKind::LeftOutObject
                | TokenKind::LeftOutTrait
                | TokenKind::LeftOutAbstract
                | TokenKind::LeftOutSealed
                | TokenKind::LeftOutCase
                | TokenKind::LeftOutType
                | TokenKind::LeftOutLazy
                | TokenKind::LeftOutDo
                | TokenKind::LeftOutTry
                | TokenKind::LeftOutThrow
                | TokenKind::LeftOutNew
                | TokenKind::LeftOutThis
                | TokenKind::LeftOutSuper
                | TokenKind::LeftOutAssume
                | TokenKind::LeftOutHalt
                | TokenKind::LeftOutYield
                | TokenKind::LeftOutOverride
                | TokenKind::LeftOutExtends
                | TokenKind::LeftOutPackage
                | TokenKind::LeftOutEnum
        )
    }
}

/// A token of a text, from the byte `start` up to the byte `end`.
#[derive(Clone, Copy, Debug, PartialEq, Eq)]
pub struct Token {
    pub kind: TokenKind,
    pub start: usize,
    pub end: usize,
}

/// The code of a character that begins no token, and of a comment that never ends.
pub const BAD_CHARACTER: u8 = 2;

/// The code of a number above 2^127 - 1.
pub const NUMBER_TOO_LARGE: u8 = 3;

/// A fault of a text: its code, and the byte where it begins.
#[derive(Clone, Copy, Debug, PartialEq, Eq)]
pub struct LexFault {
    pub code: u8,
    pub at: usize,
}
