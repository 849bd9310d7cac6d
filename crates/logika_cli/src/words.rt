ghost use Rattle.std.specs.Prelude.{◌≡◌, ◌↔◌, IsTrue, MatchOption, map};
ghost use Rattle.std.specs.String.{string_bytes};
ghost use Rattle.logika_cli.specs.Words.{AreFiles, AreNoCheck, BeginRun, IsAnother, IsCheck, IsFile};

/// The files that the words name, where they are those of `check`.
pub(crate) fn named_files(words: &[String]) -> Option<&[String]>
    ensures { MatchOption result (AreNoCheck (map string_bytes words.now))
        (λ files. IsCheck (map string_bytes words.now) (map string_bytes files.now)) }
{
    match words.split_first() {
        Some((word, files)) => {
            if is_named(word.as_str(), "check") && are_files(files) {
                Some(files)
            } else {
                None
            }
        }
        None => None,
    }
}

/// Whether the words begin with `run`.
pub(crate) fn begin_run(words: &[String]) -> bool
    ensures { IsTrue result ↔ BeginRun (map string_bytes words.now) }
{
    match words.split_first() {
        Some((word, _)) => is_named(word.as_str(), "run"),
        None => false,
    }
}

fn is_named(word: &str, name: &str) -> bool
    ensures { IsTrue result ↔ (word.now ≡ name.now) }
{
    word == name
}

/// Whether the word names a file: it is not empty, and does not begin with `-`.
fn is_file(word: &str) -> bool
    ensures { IsTrue result ↔ IsFile word.now }
{
    match word.as_bytes().split_first() {
        Some((first, _)) => *first != b'-',
        None => false,
    }
}

/// Whether the name is none of the others.
fn is_another(name: &str, others: &[String]) -> bool
    ensures { IsTrue result ↔ IsAnother name.now (map string_bytes others.now) }
{
    let mut left = others;
    'others: while let Some((other, rest)) = left.split_first() {
        if is_named(name, other.as_str()) {
            return false;
        }
        left = rest;
    }
    true
}

/// Whether the word names a file that is none of the others.
fn is_new_file(word: &str, others: &[String]) -> bool
    ensures { IsTrue result ↔ (IsFile word.now × IsAnother word.now (map string_bytes others.now)) }
{
    is_file(word) && is_another(word, others)
}

/// Whether the words name files, none of them twice.
fn are_files(words: &[String]) -> bool
    ensures { IsTrue result ↔ AreFiles (map string_bytes words.now) }
{
    let mut left = words;
    'words: while let Some((word, rest)) = left.split_first() {
        if !is_new_file(word.as_str(), rest) {
            return false;
        }
        left = rest;
    }
    true
}
