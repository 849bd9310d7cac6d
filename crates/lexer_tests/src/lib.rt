//! Tests of the tokens of a Slang text, as tables of texts and what stands in them.
#![tactic(auto)]

#[cfg(test)]
mod texts;

#[cfg(test)]
mod tests {
    use slang_lexer::{TokenKind, next_token, number_value};

    // The kind of what stands next, and where it begins and ends.
    fn found(text: &str, at: usize) -> Option<(TokenKind, usize, usize)> {
        if !text.is_char_boundary(at) {
            return None;
        }
        let token = next_token(text, at).ok()?;
        Some((token.kind, token.start, token.end))
    }

    // The code and the place of the fault that stands next.
    fn fault(text: &str, at: usize) -> Option<(u8, usize)> {
        if !text.is_char_boundary(at) {
            return None;
        }
        let fault = next_token(text, at).err()?;
        Some((fault.code, fault.at))
    }

    const SIGNS_AND_WORDS: [(&str, TokenKind); 96] = [
        ("\n", TokenKind::Newline),
        ("(", TokenKind::LeftParen),
        (")", TokenKind::RightParen),
        (",", TokenKind::Comma),
        (".", TokenKind::Dot),
        ("{", TokenKind::LeftBrace),
        ("}", TokenKind::RightBrace),
        ("[", TokenKind::LeftBracket),
        ("]", TokenKind::RightBracket),
        (";", TokenKind::Semicolon),
        (":+", TokenKind::ColonPlus),
        (":", TokenKind::Colon),
        ("==", TokenKind::DoubleEquals),
        ("=>", TokenKind::FatArrow),
        ("=", TokenKind::Equals),
        ("<=", TokenKind::LessOrEqual),
        ("<", TokenKind::Less),
        (">=", TokenKind::GreaterOrEqual),
        (">", TokenKind::Greater),
        ("!=", TokenKind::NotEquals),
        ("!", TokenKind::Bang),
        ("&&", TokenKind::DoubleAmpersand),
        ("&", TokenKind::Ampersand),
        ("||", TokenKind::DoubleBar),
        ("|-", TokenKind::Turnstile),
        ("|", TokenKind::Bar),
        ("+", TokenKind::Plus),
        ("->:", TokenKind::DashArrow),
        ("-->:", TokenKind::LongDashArrow),
        ("-", TokenKind::Minus),
        ("*", TokenKind::Star),
        ("/", TokenKind::Slash),
        ("%", TokenKind::Percent),
        ("@", TokenKind::At),
        ("~>", TokenKind::TildeArrow),
        ("__>:", TokenKind::LowArrow),
        ("___>:", TokenKind::LongLowArrow),
        ("Subst_<", TokenKind::SubstLess),
        ("Subst_>", TokenKind::SubstGreater),
        ("∀", TokenKind::ForAllSign),
        ("∃", TokenKind::ExistsSign),
        ("val", TokenKind::Val),
        ("var", TokenKind::Var),
        ("def", TokenKind::Def),
        ("class", TokenKind::Class),
        ("import", TokenKind::Import),
        ("if", TokenKind::If),
        ("else", TokenKind::Else),
        ("while", TokenKind::While),
        ("return", TokenKind::Return),
        ("assert", TokenKind::Assert),
        ("Deduce", TokenKind::Deduce),
        ("Contract", TokenKind::Contract),
        ("Requires", TokenKind::Requires),
        ("Modifies", TokenKind::Modifies),
        ("Ensures", TokenKind::Ensures),
        ("Invariant", TokenKind::Invariant),
        ("by", TokenKind::By),
        ("SubProof", TokenKind::SubProof),
        ("Assume", TokenKind::Assume),
        ("Let", TokenKind::Let),
        ("Proof", TokenKind::Proof),
        ("All", TokenKind::All),
        ("Exists", TokenKind::Exists),
        ("Res", TokenKind::Res),
        ("In", TokenKind::In),
        ("Old", TokenKind::Old),
        ("T", TokenKind::True),
        ("F", TokenKind::False),
        ("Z", TokenKind::TypeZ),
        ("B", TokenKind::TypeB),
        ("Unit", TokenKind::TypeUnit),
        ("ISZ", TokenKind::TypeIsz),
        ("until", TokenKind::Until),
        ("match", TokenKind::LeftOutMatch),
        ("for", TokenKind::LeftOutFor),
        ("object", TokenKind::LeftOutObject),
        ("trait", TokenKind::LeftOutTrait),
        ("abstract", TokenKind::LeftOutAbstract),
        ("sealed", TokenKind::LeftOutSealed),
        ("case", TokenKind::LeftOutCase),
        ("type", TokenKind::LeftOutType),
        ("lazy", TokenKind::LeftOutLazy),
        ("do", TokenKind::LeftOutDo),
        ("try", TokenKind::LeftOutTry),
        ("throw", TokenKind::LeftOutThrow),
        ("new", TokenKind::LeftOutNew),
        ("this", TokenKind::LeftOutThis),
        ("super", TokenKind::LeftOutSuper),
        ("assume", TokenKind::LeftOutAssume),
        ("halt", TokenKind::LeftOutHalt),
        ("yield", TokenKind::LeftOutYield),
        ("override", TokenKind::LeftOutOverride),
        ("extends", TokenKind::LeftOutExtends),
        ("package", TokenKind::LeftOutPackage),
        ("enum", TokenKind::LeftOutEnum),
    ];

    #[test]
    fn signs_and_words(rt: HostRuntime) {
        for &(text, kind) in &SIGNS_AND_WORDS {
            assert_eq!(rt; found(text, 0), Some((kind, 0, text.len())), "{text}");
        }
    }

    const LONGEST_TOKENS: [(&str, usize, TokenKind, usize, usize); 77] = [
        ("&&&", 0, TokenKind::DoubleAmpersand, 0, 2),
        ("&&&", 2, TokenKind::Ampersand, 2, 3),
        ("->", 0, TokenKind::Minus, 0, 1),
        ("->", 1, TokenKind::Greater, 1, 2),
        ("-->", 0, TokenKind::Minus, 0, 1),
        ("--->:", 0, TokenKind::Minus, 0, 1),
        ("--->:", 1, TokenKind::LongDashArrow, 1, 5),
        ("-->:x", 0, TokenKind::LongDashArrow, 0, 4),
        ("_", 0, TokenKind::Name, 0, 1),
        ("_>:", 0, TokenKind::Name, 0, 1),
        ("___>", 0, TokenKind::Name, 0, 3),
        ("__>:x", 0, TokenKind::LowArrow, 0, 4),
        ("___>:x", 0, TokenKind::LongLowArrow, 0, 5),
        ("____>:", 0, TokenKind::Name, 0, 4),
        ("____>:", 4, TokenKind::Greater, 4, 5),
        ("a__>:b", 0, TokenKind::Name, 0, 3),
        ("Subst_<=", 0, TokenKind::SubstLess, 0, 7),
        ("Subst_", 0, TokenKind::Name, 0, 6),
        ("Subst_x<", 0, TokenKind::Name, 0, 7),
        ("XSubst_<", 0, TokenKind::Name, 0, 7),
        ("x2", 0, TokenKind::Name, 0, 2),
        ("2x", 0, TokenKind::Number, 0, 1),
        ("2x", 1, TokenKind::Name, 1, 2),
        ("2_", 0, TokenKind::Number, 0, 1),
        ("12.5", 0, TokenKind::Number, 0, 2),
        ("vals", 0, TokenKind::Name, 0, 4),
        ("Val", 0, TokenKind::Name, 0, 3),
        ("val_", 0, TokenKind::Name, 0, 4),
        ("val1", 0, TokenKind::Name, 0, 4),
        ("T1", 0, TokenKind::Name, 0, 2),
        ("ISZ[Z]", 0, TokenKind::TypeIsz, 0, 3),
        ("datatype", 0, TokenKind::Name, 0, 8),
        ("<==", 0, TokenKind::LessOrEqual, 0, 2),
        ("=>=", 0, TokenKind::FatArrow, 0, 2),
        ("==>", 0, TokenKind::DoubleEquals, 0, 2),
        ("!==", 0, TokenKind::NotEquals, 0, 2),
        ("||-", 0, TokenKind::DoubleBar, 0, 2),
        ("|-:", 0, TokenKind::Turnstile, 0, 2),
        (":+:", 0, TokenKind::ColonPlus, 0, 2),
        ("::+", 0, TokenKind::Colon, 0, 1),
        (":=", 0, TokenKind::Colon, 0, 1),
        ("~>:", 0, TokenKind::TildeArrow, 0, 2),
        ("∀x", 0, TokenKind::ForAllSign, 0, 3),
        ("x∃", 0, TokenKind::Name, 0, 1),
        ("x∃", 1, TokenKind::ExistsSign, 1, 4),
        ("é1+", 0, TokenKind::Name, 0, 3),
        ("中文", 0, TokenKind::Name, 0, 6),
        ("_中", 0, TokenKind::Name, 0, 4),
        ("a٣", 0, TokenKind::Name, 0, 3),
        ("x\u{301}y", 0, TokenKind::Name, 0, 4),
        ("中 ", 3, TokenKind::End, 4, 4),
        ("  \t\r x", 0, TokenKind::Name, 5, 6),
        ("\r\n", 0, TokenKind::Newline, 1, 2),
        ("\n\n", 0, TokenKind::Newline, 0, 1),
        ("\n\n", 1, TokenKind::Newline, 1, 2),
        ("a;b", 1, TokenKind::Semicolon, 1, 2),
        ("", 0, TokenKind::End, 0, 0),
        ("  ", 0, TokenKind::End, 2, 2),
        ("x", 1, TokenKind::End, 1, 1),
        ("/**/", 0, TokenKind::End, 4, 4),
        ("// a", 0, TokenKind::End, 4, 4),
        ("// a\nb", 0, TokenKind::Newline, 4, 5),
        ("// /* \n*/", 0, TokenKind::Newline, 6, 7),
        ("//\r\nx", 0, TokenKind::Newline, 3, 4),
        ("//// é\n", 0, TokenKind::Newline, 7, 8),
        ("/* a */ b", 0, TokenKind::Name, 8, 9),
        ("/**/x", 0, TokenKind::Name, 4, 5),
        ("/*/*/x", 0, TokenKind::Name, 5, 6),
        ("/***/x", 0, TokenKind::Name, 5, 6),
        ("/* /* */ x", 0, TokenKind::Name, 9, 10),
        ("/* // */x", 0, TokenKind::Name, 8, 9),
        ("/*\n*/\n", 0, TokenKind::Newline, 5, 6),
        ("/* é */x", 0, TokenKind::Name, 8, 9),
        ("/*a*//*b*/ // c", 0, TokenKind::End, 15, 15),
        ("a/b", 1, TokenKind::Slash, 1, 2),
        ("a*/", 1, TokenKind::Star, 1, 2),
        ("a / /b", 1, TokenKind::Slash, 2, 3),
    ];

    #[test]
    fn longest_tokens(rt: HostRuntime) {
        for &(text, at, kind, start, end) in &LONGEST_TOKENS {
            assert_eq!(rt; found(text, at), Some((kind, start, end)), "{text} at {at}");
        }
    }

    const FAULTS: [(&str, usize, u8, usize); 31] = [
        ("#", 0, 2, 0),
        ("\"", 0, 2, 0),
        ("'", 0, 2, 0),
        ("\\", 0, 2, 0),
        ("^", 0, 2, 0),
        ("?", 0, 2, 0),
        ("`", 0, 2, 0),
        ("$", 0, 2, 0),
        ("\0", 0, 2, 0),
        ("\u{b}", 0, 2, 0),
        ("\u{c}", 0, 2, 0),
        ("\u{a0}x", 0, 2, 0),
        ("£", 0, 2, 0),
        ("٣", 0, 2, 0),
        ("\u{301}", 0, 2, 0),
        ("~", 0, 2, 0),
        ("~ >", 0, 2, 0),
        ("  #", 0, 2, 2),
        ("x#", 1, 2, 1),
        ("a\t#b", 1, 2, 2),
        ("/**/ $", 0, 2, 5),
        ("// x\n#", 5, 2, 5),
        ("/*", 0, 2, 0),
        ("/*/", 0, 2, 0),
        ("/**", 0, 2, 0),
        ("x /* y *", 1, 2, 2),
        ("/* a */ /* é", 0, 2, 8),
        ("170141183460469231731687303715884105728", 0, 3, 0),
        ("  170141183460469231731687303715884105728 ", 0, 3, 2),
        ("1701411834604692317316873037158841057270", 0, 3, 0),
        (
            "99999999999999999999999999999999999999999999999999",
            0,
            3,
            0,
        ),
    ];

    #[test]
    fn faults(rt: HostRuntime) {
        for &(text, at, code, place) in &FAULTS {
            assert_eq!(rt; fault(text, at), Some((code, place)), "{text} at {at}");
        }
    }

    const NUMBERS: [(&str, Option<i128>); 12] = [
        ("0", Some(0)),
        ("007", Some(7)),
        ("42", Some(42)),
        (
            "170141183460469231731687303715884105727",
            Some(170141183460469231731687303715884105727),
        ),
        (
            "000000000000000000000000000000000000000000000000000000000000170141183460469231731687303715884105727",
            Some(170141183460469231731687303715884105727),
        ),
        ("170141183460469231731687303715884105728", None),
        (
            "999999999999999999999999999999999999999999999999999999999999",
            None,
        ),
        ("", None),
        ("-1", None),
        ("+1", None),
        ("1x", None),
        ("x", None),
    ];

    #[test]
    fn numbers(rt: HostRuntime) {
        for &(text, value) in &NUMBERS {
            assert_eq!(rt; number_value(text), value, "{text}");
            if value.is_some() {
                assert_eq!(rt;
                    found(text, 0),
                    Some((TokenKind::Number, 0, text.len())),
                    "{text}"
                );
            }
        }
    }

    const STATEMENTS: [(&str, bool, bool, bool); 55] = [
        ("x", true, true, false),
        ("1", true, true, false),
        ("T", true, true, false),
        ("F", true, true, false),
        ("Z", true, true, false),
        ("B", true, true, false),
        ("Unit", true, true, false),
        ("ISZ", true, true, false),
        ("Res", true, true, false),
        (")", true, false, false),
        ("]", true, false, false),
        ("}", true, false, false),
        ("else", false, false, false),
        ("by", false, false, false),
        (",", false, false, false),
        (".", false, false, false),
        (";", false, false, false),
        (":", false, false, false),
        ("=", false, false, false),
        ("=>", false, false, false),
        ("[", false, false, false),
        ("match", false, true, true),
        ("for", false, true, true),
        ("object", false, true, true),
        ("trait", false, true, true),
        ("abstract", false, true, true),
        ("sealed", false, true, true),
        ("case", false, true, true),
        ("type", false, true, true),
        ("lazy", false, true, true),
        ("do", false, true, true),
        ("try", false, true, true),
        ("throw", false, true, true),
        ("new", false, true, true),
        ("this", false, true, true),
        ("super", false, true, true),
        ("assume", false, true, true),
        ("halt", false, true, true),
        ("yield", false, true, true),
        ("override", false, true, true),
        ("extends", false, true, true),
        ("package", false, true, true),
        ("enum", false, true, true),
        ("(", false, true, false),
        ("{", false, true, false),
        ("-", false, true, false),
        ("!", false, true, false),
        ("@", false, true, false),
        ("val", false, true, false),
        ("if", false, true, false),
        ("return", false, true, false),
        ("Assume", false, true, false),
        ("All", false, true, false),
        ("\n", false, true, false),
        ("", false, true, false),
    ];

    #[test]
    fn statements(rt: HostRuntime) {
        for &(text, ends, begins, left_out) in &STATEMENTS {
            let (kind, _, _) = found(text, 0).unwrap_or((TokenKind::End, 0, 0));
            let tells = (
                kind.ends_statement(),
                kind.begins_statement(),
                kind.is_left_out(),
            );
            assert_eq!(rt; tells, (ends, begins, left_out), "{text}");
        }
    }
}
