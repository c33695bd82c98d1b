//! The auxiliary records that a link reads: those of weak externals and those of sections.

ghost use Rattle.std.specs.Prelude.{◌≡◌, ◌≤◌, true, length, IfSome};
ghost use Rattle.std.specs.Option.{option_copied};
ghost use Rattle.link_base.specs.PeFormat as pe;
ghost use Rattle.coff_records.specs.ObjectFile.{starts_symbol, aux_total_of};
ghost use Rattle.coff_aux.specs.AuxRecords.{first_aux, tag_in, characteristics_in, selection_in, associated_in};

use coff_object::Object;
use link_base::pe_format::SIZEOF_SYMBOL_EX;
use link_base::{u16_in, u32_in};

// PE Format, "Auxiliary Format 3: Weak Externals"

const WEAK_TAG_INDEX: usize = 0;

const WEAK_CHARACTERISTICS: usize = 4;

pub const WEAK_EXTERN_SEARCH_NOLIBRARY: u32 = 1;

pub const WEAK_EXTERN_SEARCH_LIBRARY: u32 = 2;

pub const WEAK_EXTERN_SEARCH_ALIAS: u32 = 3;

// PE Format, "Auxiliary Format 5: Section Definitions"; for big objects LLVM, `COFF::coff_aux_section_definition`

const SECTION_NUMBER: usize = 12;

const SECTION_SELECTION: usize = 14;

const SECTION_HIGH_NUMBER: usize = 16;

pub const COMDAT_SELECT_NODUPLICATES: u8 = 1;

pub const COMDAT_SELECT_ANY: u8 = 2;

pub const COMDAT_SELECT_SAME_SIZE: u8 = 3;

pub const COMDAT_SELECT_EXACT_MATCH: u8 = 4;

pub const COMDAT_SELECT_ASSOCIATIVE: u8 = 5;

pub const COMDAT_SELECT_LARGEST: u8 = 6;

/// The first auxiliary record of a symbol that has so many of them.
#[tactic(auto, unfolding(crate::specs::AuxRecords::first_aux))]
pub fn first_aux<'a>(object: &Object<'a>, index: u32, aux: u8) -> Option<&'a [u8]>
    requires start { starts_symbol object.now index ≡ true }
    requires count { aux ≡ aux_total_of object.now index }
    ensures record { option_copied result ≡ first_aux object.now index }
    ensures whole { IfSome result (λ aux. pe.SIZEOF_SYMBOL ≤ length aux.now) }
{
    if aux == 0 {
        return None;
    }
    Some(object.aux(index, 0))
}

/// The record of the symbol that a weak external means.
#[tactic(auto, unfolding(crate::specs::AuxRecords::tag_in))]
pub fn tag_in(aux: &[u8]) -> u32
    requires { pe.SIZEOF_SYMBOL ≤ length aux.now }
    ensures { result ≡ tag_in aux.now }
{
    u32_in(aux, WEAK_TAG_INDEX)
}

/// How libraries are searched for the name of a weak external.
#[tactic(auto, unfolding(crate::specs::AuxRecords::characteristics_in))]
pub fn characteristics_in(aux: &[u8]) -> u32
    requires { pe.SIZEOF_SYMBOL ≤ length aux.now }
    ensures { result ≡ characteristics_in aux.now }
{
    u32_in(aux, WEAK_CHARACTERISTICS)
}

/// How one of several COMDAT sections is selected.
#[tactic(auto, unfolding(crate::specs::AuxRecords::selection_in))]
pub fn selection_in(aux: &[u8]) -> u8
    requires { pe.SIZEOF_SYMBOL ≤ length aux.now }
    ensures { result ≡ selection_in aux.now }
{
    aux[SECTION_SELECTION]
}

/// The section that a COMDAT section is selected with.
#[tactic(auto, unfolding(crate::specs::AuxRecords::associated_in))]
pub fn associated_in(aux: &[u8]) -> u32
    requires { pe.SIZEOF_SYMBOL ≤ length aux.now }
    ensures { result ≡ associated_in aux.now }
{
    let number = u32::from(u16_in(aux, SECTION_NUMBER));
    if aux.len() == SIZEOF_SYMBOL_EX {
        return number + (u32::from(u16_in(aux, SECTION_HIGH_NUMBER)) << 16);
    }
    number
}
