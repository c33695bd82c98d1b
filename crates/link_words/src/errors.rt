//! Why a command line is refused.

ghost use Rattle.std.specs.Prelude.{◌≡◌};
ghost use Rattle.link_words.specs.UsageWord.{usage_word};

use std::alloc::{AllocError, AllocFailed};

/// What is wrong with a command line, in the order of the tests.
#[derive(Clone, Copy, Debug, PartialEq, Eq)]
pub enum UsageKind {
    /// There are no words, the command is unknown, or it has a wrong number of words.
    Command,
    /// No option has this name.
    Unknown,
    /// The option has no colon and needs a value, or nothing follows its first colon.
    MissingValue,
    /// The value has not the form that the option takes, the option takes none, the word has more than 32,000
    /// bytes or a NUL, or a number is out of its bounds.
    BadValue,
    /// No word is refused, and a link has no input file.
    NoInput,
    /// No word is refused, and a link without an entry is no DLL, or two files that it writes have one name.
    Conflict,
}

/// The word that names what is wrong with a command line, in ASCII.
pub fn usage_word(kind: UsageKind) -> &'static [u8]
    ensures { result.now ≡ usage_word kind }
{
    match kind {
        UsageKind::Command => b"Command",
        UsageKind::Unknown => b"Unknown",
        UsageKind::MissingValue => b"MissingValue",
        UsageKind::BadValue => b"BadValue",
        UsageKind::NoInput => b"NoInput",
        UsageKind::Conflict => b"Conflict",
    }
}

/// Why `read_words` gives no command.
#[derive(Clone, Copy, Debug, PartialEq, Eq)]
pub enum WordsError {
    /// The least word that is refused, and why; the index is 0 where it is the whole line.
    Usage { index: usize, kind: UsageKind },
    /// Want of memory.
    Memory,
}

pub(crate) fn usage(index: usize, kind: UsageKind) -> WordsError
    ensures { result ≡ WordsError.Usage index kind }
{
    WordsError::Usage { index, kind }
}

/// Why one word is refused.
#[derive(Clone, Copy)]
pub(crate) enum Refusal {
    Usage(UsageKind),
    Memory,
}

impl From<AllocError> for WordsError {
    ghost use Rattle.std.specs.Prelude.{◌≡◌};
    ghost use Rattle.link_words.specs.declared.errors.WordsError.TheVariants.{Memory};

    ghost from_gives = { λ _ error. error ≡ Memory };

    fn from(_error: AllocError) -> WordsError {
        WordsError::Memory
    }
}

impl<T: Drop> From<AllocFailed<T>> for Refusal {
    ghost use Rattle.std.specs.Prelude.{◌≡◌};
    ghost use Rattle.link_words.specs.declared.errors.Refusal.TheVariants.{Memory};

    ghost from_gives = { λ _ error. error ≡ Memory };

    fn from(_error: AllocFailed<T>) -> Refusal {
        Refusal::Memory
    }
}
