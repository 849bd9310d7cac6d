//! How the signs and the words are spelled.

ghost use Rattle.std.specs.Prelude.{◌≡◌, ◌==◌, filter, get_or, length};
ghost use Rattle.slang_lexer.specs.Scan.{table_of};
ghost use Rattle.slang_lexer.specs.Spelling.{signs, words};

use crate::token::TokenKind;

/// The signs that begin with this byte. One that begins another stands after it.
pub fn signs_from(first: u8) -> &'static [(&'static str, TokenKind)]
    ensures { table_of result.now ≡ filter (λ row. get_or row.0 0 0 == first) signs }
{
    match first {
        b'\n' => &[("\n", TokenKind::Newline)],
        b'(' => &[("(", TokenKind::LeftParen)],
        b')' => &[(")", TokenKind::RightParen)],
        b',' => &[(",", TokenKind::Comma)],
        b'.' => &[(".", TokenKind::Dot)],
        b'{' => &[("{", TokenKind::LeftBrace)],
        b'}' => &[("}", TokenKind::RightBrace)],
        b'[' => &[("[", TokenKind::LeftBracket)],
        b']' => &[("]", TokenKind::RightBracket)],
        b';' => &[(";", TokenKind::Semicolon)],
        b':' => &[(":+", TokenKind::ColonPlus), (":", TokenKind::Colon)],
        b'=' => &[
            ("==", TokenKind::DoubleEquals),
            ("=>", TokenKind::FatArrow),
            ("=", TokenKind::Equals),
        ],
        b'<' => &[("<=", TokenKind::LessOrEqual), ("<", TokenKind::Less)],
        b'>' => &[(">=", TokenKind::GreaterOrEqual), (">", TokenKind::Greater)],
        b'!' => &[("!=", TokenKind::NotEquals), ("!", TokenKind::Bang)],
        b'&' => &[
            ("&&", TokenKind::DoubleAmpersand),
            ("&", TokenKind::Ampersand),
        ],
        b'|' => &[
            ("||", TokenKind::DoubleBar),
            ("|-", TokenKind::Turnstile),
            ("|", TokenKind::Bar),
        ],
        b'+' => &[("+", TokenKind::Plus)],
        b'-' => &[
            ("->:", TokenKind::DashArrow),
            ("-->:", TokenKind::LongDashArrow),
            ("-", TokenKind::Minus),
        ],
        b'*' => &[("*", TokenKind::Star)],
        b'/' => &[("/", TokenKind::Slash)],
        b'%' => &[("%", TokenKind::Percent)],
        b'@' => &[("@", TokenKind::At)],
        b'~' => &[("~>", TokenKind::TildeArrow)],
        b'_' => &[
            ("__>:", TokenKind::LowArrow),
            ("___>:", TokenKind::LongLowArrow),
        ],
        b'S' => &[
            ("Subst_<", TokenKind::SubstLess),
            ("Subst_>", TokenKind::SubstGreater),
        ],
        // The first byte of both in UTF-8.
        0xe2 => &[("∀", TokenKind::ForAllSign), ("∃", TokenKind::ExistsSign)],
        _ => &[],
    }
}

/// The words of this length, those of the language and those that it leaves out.
pub fn words_of(len: usize) -> &'static [(&'static str, TokenKind)]
    ensures { table_of result.now ≡ filter (λ row. length row.0 == len) words }
{
    match len {
        1 => &[
            ("T", TokenKind::True),
            ("F", TokenKind::False),
            ("Z", TokenKind::TypeZ),
            ("B", TokenKind::TypeB),
        ],
        2 => &[
            ("if", TokenKind::If),
            ("by", TokenKind::By),
            ("In", TokenKind::In),
            ("do", TokenKind::LeftOutDo),
        ],
        3 => &[
            ("val", TokenKind::Val),
            ("var", TokenKind::Var),
            ("def", TokenKind::Def),
            ("Let", TokenKind::Let),
            ("All", TokenKind::All),
            ("Res", TokenKind::Res),
            ("Old", TokenKind::Old),
            ("ISZ", TokenKind::TypeIsz),
            ("for", TokenKind::LeftOutFor),
            ("try", TokenKind::LeftOutTry),
            ("new", TokenKind::LeftOutNew),
        ],
        4 => &[
            ("else", TokenKind::Else),
            ("Unit", TokenKind::TypeUnit),
            ("case", TokenKind::LeftOutCase),
            ("type", TokenKind::LeftOutType),
            ("lazy", TokenKind::LeftOutLazy),
            ("this", TokenKind::LeftOutThis),
            ("halt", TokenKind::LeftOutHalt),
            ("enum", TokenKind::LeftOutEnum),
        ],
        5 => &[
            ("class", TokenKind::Class),
            ("while", TokenKind::While),
            ("Proof", TokenKind::Proof),
            ("until", TokenKind::Until),
            ("match", TokenKind::LeftOutMatch),
            ("trait", TokenKind::LeftOutTrait),
            ("throw", TokenKind::LeftOutThrow),
            ("super", TokenKind::LeftOutSuper),
            ("yield", TokenKind::LeftOutYield),
        ],
        6 => &[
            ("import", TokenKind::Import),
            ("return", TokenKind::Return),
            ("assert", TokenKind::Assert),
            ("Deduce", TokenKind::Deduce),
            ("Assume", TokenKind::Assume),
            ("Exists", TokenKind::Exists),
            ("object", TokenKind::LeftOutObject),
            ("sealed", TokenKind::LeftOutSealed),
            ("assume", TokenKind::LeftOutAssume),
        ],
        7 => &[
            ("Ensures", TokenKind::Ensures),
            ("extends", TokenKind::LeftOutExtends),
            ("package", TokenKind::LeftOutPackage),
        ],
        8 => &[
            ("Contract", TokenKind::Contract),
            ("Requires", TokenKind::Requires),
            ("Modifies", TokenKind::Modifies),
            ("SubProof", TokenKind::SubProof),
            ("abstract", TokenKind::LeftOutAbstract),
            ("override", TokenKind::LeftOutOverride),
        ],
        9 => &[("Invariant", TokenKind::Invariant)],
        _ => &[],
    }
}
