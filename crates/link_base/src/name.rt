//! Names: of symbols, and of the files and members that a diagnostic prints.

ghost use Rattle.std.specs.Prelude.{◌≡◌, ◌==◌, ◌++◌, nat_eq, length, true, false, OnOk, MatchOption};
ghost use Rattle.std.specs.Ordering.{nat_cmp};
ghost use Rattle.std.specs.Cmp.Lexicographic.{slice_cmp};
ghost use Rattle.link_base.specs.NameText.{import_prefix, import_prefix_of, begins_import, behind_import, name_hash_input};
ghost use lib.Pointwise.{pointwise};
ghost use Rattle.std.proofs.Common.{rules, refl};
ghost use Rattle.std.specs.Cmp.{partial_equiv_from_equiv};
ghost use Rattle.std.specs.Cmp.Lexicographic.{texts_po, texts_ties};
ghost use Rattle.std.proofs.lemmas.Cmp.{nat_list_eq_equiv, nat_list_cmp_total};
ghost use Rattle.std.specs.Cmp.Rules.{comparing, hashing};
ghost use Rattle.std.specs.Ordering.{as_partial_cmp};

use crate::memory::Memory;
use std::cmp::Ordering;
use std::hash::{Hash, Hasher};
use std::marker::Model;

const IMPORT_PREFIX: &[u8] = b"__imp_";

/// A name as bytes, borrowed from an input. The import prefix `__imp_` is kept as a flag, so that a name
/// with the prefix can be made of one without it and no memory.
#[derive(Drop)]
pub struct Name<'a> {
    is_import: bool,
    rest: &'a [u8],
}

impl<'a> Model for Name<'a> {
    ghost use Rattle.std.specs.Prelude.{◌≡◌, List, ℕ};
    ghost use Rattle.link_base.specs.NameText.{begins_import, with_import};

    ghost Value = { List ℕ };

    ghost view = { λ name. with_import name.is_import name.rest.now };

    ghost invariant = { λ name. begins_import (with_import name.is_import name.rest.now) ≡ name.is_import };
}

impl<'a> Name<'a> {
    /// The name with this text.
    pub fn of(text: &'a [u8]) -> Name<'a>
        ensures { result ≡ text.now }
    {
        match import_rest(text) {
            Some(rest) => Name {
                is_import: true,
                rest,
            },
            None => Name {
                is_import: false,
                rest: text,
            },
        }
    }

    /// The name `__imp_` followed by the symbol.
    pub fn import(symbol: &'a [u8]) -> Name<'a>
        ensures { result ≡ import_prefix ++ symbol.now }
    {
        Name {
            is_import: true,
            rest: symbol,
        }
    }

    /// Whether the name begins with `__imp_`.
    pub fn is_import(&self) -> bool
        ensures { result ≡ begins_import self.now }
    {
        self.is_import
    }

    /// How many bytes the name has.
    pub fn len(&self) -> usize
        ensures { result ≡ length self.now }
    {
        self.prefix().len() + self.rest.len()
    }

    pub fn is_empty(&self) -> bool
        ensures { result ≡ (length self.now == 0) }
    {
        self.len() == 0
    }

    /// The bytes after the prefix, or all of the name where it has none.
    pub fn rest(&self) -> &'a [u8]
        ensures { result.now ≡ behind_import self.now }
    {
        self.rest
    }

    /// The prefix where the name begins with it, and else nothing.
    pub fn prefix(&self) -> &'static [u8]
        ensures { result.now ≡ import_prefix_of self.now }
    {
        if self.is_import { IMPORT_PREFIX } else { b"" }
    }

    /// Appends the name's bytes to a buffer.
    pub fn push_to(&self, out: &mut Vec<u8>) -> Result<(), Memory>
        ensures { OnOk result (out.new.items ≡ out.old.items ++ self.now) }
    {
        out.extend_from_slice(self.prefix())?;
        out.extend_from_slice(self.rest)?;
        Ok(())
    }

    /// An equal name.
    pub fn again(&self) -> Name<'a>
        ensures { result ≡ self.now }
    {
        Name {
            is_import: self.is_import,
            rest: self.rest,
        }
    }
}

/// The text after `__imp_`, where it begins so. The first byte tells most texts from such a one.
fn import_rest(text: &[u8]) -> Option<&[u8]>
    ensures { MatchOption result (begins_import text.now ≡ false) (λ rest. (begins_import text.now ≡ true) × (rest.now ≡ behind_import text.now)) }
{
    if text.first() != Some(&b'_') {
        return None;
    }
    text.strip_prefix(IMPORT_PREFIX)
}

impl PartialEq for Name<'_> {
    ghost eq = { pointwise nat_eq };

    ghost laws = { partial_equiv_from_equiv nat_list_eq_equiv };

    fn eq(&self, other: &Self) -> bool {
        self.is_import == other.is_import && self.rest == other.rest
    }
}

impl Eq for Name<'_> {
    ghost laws = { nat_list_eq_equiv };
}

impl PartialOrd for Name<'_> {
    ghost partial_cmp = { as_partial_cmp (slice_cmp nat_cmp) };

    ghost laws = { texts_po };

    fn partial_cmp(&self, other: &Self) -> Option<Ordering> {
        Some(self.cmp(other))
    }
}

impl Ord for Name<'_> {
    ghost cmp = { slice_cmp nat_cmp };

    ghost total = { nat_list_cmp_total };

    ghost matches_partial_cmp = { λ x y. refl };

    ghost matches_eq = { texts_ties };

    fn cmp(&self, other: &Self) -> Ordering {
        match (self.is_import, other.is_import) {
            (true, false) => IMPORT_PREFIX.cmp(&other.rest),
            (false, true) => self.rest.cmp(&IMPORT_PREFIX),
            _ => self.rest.cmp(&other.rest),
        }
    }
}

impl Hash for Name<'_> {
    ghost hash_input = { name_hash_input };

    ghost respects_eq = { Prim.search (hashing, rules) };

    fn hash<H: Hasher>(&self, state: &mut H) {
        state.write(self.rest);
        self.is_import.hash(state);
    }
}
