//! Names in either case, and the directives that a linker acts on.

ghost use Rattle.std.specs.Prelude.{◌≡◌, map};
ghost use Rattle.std.specs.Char.{to_ascii_lowercase};
ghost use Rattle.directives.specs.Names.{is_word, lookup, listed};
ghost use Rattle.directives.specs.FormView.{rows};

/// A directive of the table, by its name.
#[derive(Clone, Copy)]
pub(crate) enum Listed {
    AlignComm,
    AlternateName,
    DefaultLib,
    Exports,
    FailIfMismatch,
    Include,
    Merge,
}

/// The directive of this name. No two directives have names of one length, so that it is compared with one at most.
pub(crate) fn directive_named(name: &[u8]) -> Option<Listed>
    ensures { result ≡ listed name.now }
{
    match name.len() {
        5 => spells(name, b"MERGE", b"merge").then_some(Listed::Merge),
        6 => spells(name, b"EXPORT", b"export").then_some(Listed::Exports),
        7 => spells(name, b"INCLUDE", b"include").then_some(Listed::Include),
        9 => spells(name, b"ALIGNCOMM", b"aligncomm").then_some(Listed::AlignComm),
        10 => spells(name, b"DEFAULTLIB", b"defaultlib").then_some(Listed::DefaultLib),
        13 => spells(name, b"ALTERNATENAME", b"alternatename").then_some(Listed::AlternateName),
        14 => spells(name, b"FAILIFMISMATCH", b"failifmismatch").then_some(Listed::FailIfMismatch),
        _ => None,
    }
}

/// Whether the name spells the word, in either case, which is given in capitals and in small letters: compilers write it in
/// one of these, and both cost less to compare than letter by letter.
fn spells(name: &[u8], capitals: &[u8], small: &[u8]) -> bool
    requires { map to_ascii_lowercase small.now ≡ map to_ascii_lowercase capitals.now }
    ensures { result ≡ is_word name.now capitals.now }
{
    name == small || is_word(name, capitals)
}

/// What the first row of this name says, in either case of ASCII letters.
pub fn lookup<T: Copy>(mut table: &[(&[u8], T)], name: &[u8]) -> Option<T>
    ensures { result ≡ lookup (rows table.entry.now) name.now }
{
    while let [row, rest @ ..] = table {
        if is_word(name, row.0) {
            return Some(row.1);
        }
        table = rest;
    }
    None
}

/// Whether the text is the word, in either case of ASCII letters. Its length is looked at first, and then the word's own case,
/// as they cost least.
pub fn is_word(text: &[u8], word: &[u8]) -> bool
    ensures { result ≡ is_word text.now word.now }
{
    if text.len() != word.len() {
        return false;
    }
    text == word || text.eq_ignore_ascii_case(word)
}
