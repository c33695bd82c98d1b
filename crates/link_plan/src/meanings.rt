//! What the words and the modules of a link refer to.

ghost use Rattle.std.specs.Prelude.{◌≡◌, ◌≤◌, length, None, IfOk, OnOk, IfErr};
ghost use Rattle.link_base.specs.Limits.{MODULE_LIMIT};
ghost use Rattle.link_base.specs.Refusals.{RefusesFor};
ghost use Rattle.link_words.specs.Outcome.{options_said};
ghost use Rattle.lib_search.specs.LinkOf.{asked_words};
ghost use Rattle.link_pieces.specs.LocalSlots.{slot_names};
ghost use Rattle.link_fields.specs.Entry.{entry_meant};
ghost use Rattle.link_plan.specs.PlanFaults.{meaning_fault};

use crate::entry::{entry_meaning, note_entry_slot};
use crate::references::{check_names, check_references};
use lib_search::asked_names;
use link_base::Refusal;
use link_pieces::{LinkNames, LocalSlots};
use link_words::Options;
use module_view::Module;
use std::alloc::Global;
use std::collections::BTreeSet;
use symbol_table::Meaning;

/// What a link refers to.
#[derive(Drop)]
pub(crate) struct Meanings<'a> {
    /// What its entry means, where there is one.
    pub(crate) start: Option<Meaning<'a>>,
    /// The local slots that its names mean.
    pub(crate) slots: LocalSlots<'a>,
}

/// What the entry, the other names that the command line asks for, and the names of these modules mean. The first that means nothing is refused.
pub(crate) fn meanings_of<'a>(
    alloc: Global,
    names: &LinkNames<'a>,
    modules: &[Module<'a>],
    options: &Options<'a>,
) -> Result<Meanings<'a>, Refusal<'a>>
    requires same { names.now.modules ≡ modules.now }
    requires few { length modules.now ≤ MODULE_LIMIT }
    requires words { names.now.words ≡ asked_words (options_said options.now) }
    ensures start { IfOk result (λ meant. meant.start ≡ entry_meant names.now (options_said options.now).entry_name) }
    ensures slots { IfOk result (λ meant. meant.slots ≡ slot_names names.now) }
    ensures accepted { OnOk result (meaning_fault (options_said options.now) names.now ≡ None) }
    ensures refused { IfErr result (RefusesFor (meaning_fault (options_said options.now) names.now)) }
{
    let mut slots = BTreeSet::new(alloc);
    let start = entry_meaning(names, &options.entry)?;
    note_entry_slot(&mut slots, &start)?;
    let asked = asked_names(alloc, options)?;
    check_names(names, &asked, &mut slots)?;
    check_references(names, modules, &mut slots)?;
    let slots = LocalSlots::of(alloc, &slots)?;
    Ok(Meanings { start, slots })
}
