//! What the symbols of an object mean to its relocations.

ghost use Rattle.std.specs.Prelude.{◌≡◌, ◌==◌, ◌<◌, ℕ, List, None, Some, Err, length, slice_index_or, replicate, IfSome, OnOk, if◌then◌else◌};
ghost use Rattle.std.specs.Option.{option_copied, option_or};
ghost use Rattle.coff_records.specs.ObjectFile.{symbol_at};
ghost use Rattle.module_view.specs.Module.{module_at};
ghost use Rattle.link_pieces.specs.LinkParts.{LinkParts};
ghost use Rattle.link_pieces.specs.PieceIndex.{IsPieceIndex};
ghost use Rattle.link_fields.specs.Targets.{section_target, common_target, import_target, thunk_target, slot_target, own_target, meaning_target, known_target, meant_target, has_meaning, local_target, symbol_target, record_target, AreTargets};

use coff_object::{Object, SymbolRecord};
use link_base::pe_format::{
    SYM_ABSOLUTE, SYM_CLASS_EXTERNAL, SYM_CLASS_WEAK_EXTERNAL, SYM_DEBUG, SYM_UNDEFINED,
};
use link_base::{Memory, Name, TargetFault};
use link_pieces::{LinkNames, PieceIndex};
use relocate::{PackedTarget, Target};
use symbol_table::{Meaning, NoMeaning};

/// Replaces a list by what each symbol record of the object at a position means, by the record's index: a target, or why it has
/// none; nothing where a record is no symbol.
pub(crate) fn read_targets<'a>(
    targets: &mut Vec<PackedTarget>,
    names: &LinkNames<'a>,
    index: &PieceIndex<'a>,
    object: &Object<'a>,
    position: u32,
) -> Result<(), Memory>
    requires indexed { IsPieceIndex names.now index.now }
    requires here { object.now ≡ (module_at names.now.modules position).bytes }
    ensures { OnOk result (AreTargets names.now position object.now targets.new.items) }
{
    put_nothing(targets, object.record_count())?;
    for (at, symbol) in object.symbols() {
        let target = symbol_target(names, index, at, &symbol, position);
        note(targets, at as usize, target);
    }
    Ok(())
}

/// Replaces a list by nothing for each of `count` records.
fn put_nothing(targets: &mut Vec<PackedTarget>, count: u32) -> Result<(), Memory>
    ensures { OnOk result (targets.new.items ≡ replicate count None) }
{
    targets.clear();
    targets.reserve(count as usize)?;
    for _ in 0..count {
        targets.push(PackedTarget::new(None))?;
    }
    Ok(())
}

/// Notes what a record means, where nothing is noted there.
fn note(targets: &mut Vec<PackedTarget>, at: usize, target: Result<Target, TargetFault>)
    requires { at < length targets.old.items }
    ensures len { length targets.new.items ≡ length targets.old.items }
    ensures noted { (other : ℕ) → slice_index_or targets.new.items other None
        ≡ option_or (slice_index_or targets.old.items other None) (if at == other then Some target else None) }
{
    if targets[at].is_none() {
        targets[at] = PackedTarget::new(Some(target));
    }
}

/// What a symbol of the module at a position means, by its record.
fn symbol_target<'a>(
    names: &LinkNames<'a>,
    index: &PieceIndex<'a>,
    at: u32,
    symbol: &SymbolRecord<'a>,
    position: u32,
) -> Result<Target, TargetFault>
    requires indexed { IsPieceIndex names.now index.now }
    requires here { symbol.now ≡ symbol_at (module_at names.now.modules position).bytes at }
    ensures { result ≡ symbol_target names.now position symbol.now }
{
    if has_meaning(symbol) {
        return meant_target(index, names.resolve_symbol(position, at, symbol));
    }
    local_target(names, index, symbol, position)
}

/// Whether others can name a symbol.
#[tactic(auto, unfolding(crate::specs::Targets::has_meaning))]
fn has_meaning(symbol: &SymbolRecord<'_>) -> bool
    ensures { result ≡ has_meaning symbol.now }
{
    let class = symbol.class();
    if class != SYM_CLASS_EXTERNAL && class != SYM_CLASS_WEAK_EXTERNAL {
        return false;
    }
    symbol.section() != SYM_DEBUG
}

/// What a record of the module at a position means, where it is noted which name its symbol has: nothing else of the module is
/// read then.
pub(crate) fn noted_target<'a>(
    names: &LinkNames<'a>,
    index: &PieceIndex<'a>,
    object: &Object<'a>,
    position: u32,
    at: u32,
) -> Option<Result<Target, TargetFault>>
    requires indexed { IsPieceIndex names.now index.now }
    requires here { object.now ≡ (module_at names.now.modules position).bytes }
    ensures { IfSome result (λ target. record_target names.now position object.now at ≡ Some target) }
{
    let meant = names.noted_meaning(position, at)?;
    if !has_meaning(&object.symbol_record(at)) {
        return None;
    }
    Some(known_target(index, meant))
}

/// What a meaning is to a relocation, or that there is none.
fn known_target<'a>(
    index: &PieceIndex<'a>,
    meant: Option<&Meaning<'a>>,
) -> Result<Target, TargetFault>
    ensures { (link : LinkParts) → IsPieceIndex link index.now → result ≡ known_target link (option_copied meant.entry) }
{
    match meant {
        Some(
            Meaning::Section {
                module,
                section,
                value,
            },
        ) => section_target(index, *module, *section, *value),
        Some(meaning) => meaning_target(index, meaning),
        None => Err(TargetFault::NoSection),
    }
}

/// What a meaning is to a relocation, or why there is none.
pub fn meant_target<'a>(
    index: &PieceIndex<'a>,
    meaning: Result<Meaning<'a>, NoMeaning>,
) -> Result<Target, TargetFault>
    ensures { (link : LinkParts) → IsPieceIndex link index.now → result ≡ meant_target link meaning.entry }
{
    match meaning {
        Ok(meaning) => meaning_target(index, &meaning),
        Err(_) => Err(TargetFault::NoSection),
    }
}

/// What a meaning is to a relocation.
fn meaning_target<'a>(index: &PieceIndex<'a>, meaning: &Meaning<'a>) -> Result<Target, TargetFault>
    ensures { (link : LinkParts) → IsPieceIndex link index.now → result ≡ meaning_target link meaning.now }
{
    match meaning {
        Meaning::Section {
            module,
            section,
            value,
        } => section_target(index, *module, *section, *value),
        Meaning::Common { module, symbol } => common_target(index, *module, *symbol),
        Meaning::Absolute(value) => Ok(Target::Absolute(*value)),
        Meaning::ImageBase => Ok(Target::ImageBase),
        Meaning::Slot { module } => import_target(index, *module),
        Meaning::Thunk { module } => thunk_target(index, *module),
        Meaning::LocalSlot(name) => slot_target(index, name),
    }
}

/// What a symbol of the module at a position means that no other module can name.
#[tactic(auto, unfolding(crate::specs::Targets::local_target))]
fn local_target(
    names: &LinkNames<'_>,
    index: &PieceIndex<'_>,
    symbol: &SymbolRecord<'_>,
    position: u32,
) -> Result<Target, TargetFault>
    requires { IsPieceIndex names.now index.now }
    ensures { result ≡ local_target names.now position symbol.now }
{
    let section = symbol.section();
    if section == SYM_ABSOLUTE {
        return Ok(Target::Absolute(symbol.value()));
    }
    if section > SYM_UNDEFINED {
        return own_target(names, index, position, section as u32, symbol.value());
    }
    Err(TargetFault::Local)
}

/// An offset in a section of the module at a position, which that module alone can name.
fn own_target(
    names: &LinkNames<'_>,
    index: &PieceIndex<'_>,
    position: u32,
    section: u32,
    value: u32,
) -> Result<Target, TargetFault>
    requires { IsPieceIndex names.now index.now }
    ensures { result ≡ own_target names.now position section value }
{
    if !names.takes_part(position, section) {
        return Err(TargetFault::Discarded);
    }
    section_target(index, position, section, value)
}

/// An offset in a section of the module at a position.
fn section_target(
    index: &PieceIndex<'_>,
    position: u32,
    section: u32,
    value: u32,
) -> Result<Target, TargetFault>
    ensures { (link : LinkParts) → IsPieceIndex link index.now → result ≡ section_target link position section value }
{
    match index.of(position, section) {
        Some(piece) => Ok(Target::Piece { piece, value }),
        None => Err(TargetFault::Unplaced),
    }
}

/// A common of the module at a position, by the record of its symbol.
fn common_target(index: &PieceIndex<'_>, position: u32, symbol: u32) -> Result<Target, TargetFault>
    ensures { (link : LinkParts) → IsPieceIndex link index.now → result ≡ common_target link position symbol }
{
    match index.of_common(position, symbol) {
        Some(piece) => Ok(Target::Piece { piece, value: 0 }),
        None => Err(TargetFault::Unplaced),
    }
}

/// The slot of a name.
fn slot_target<'a>(index: &PieceIndex<'a>, name: &Name<'a>) -> Result<Target, TargetFault>
    ensures { (link : LinkParts) → IsPieceIndex link index.now → result ≡ slot_target link name.now }
{
    match index.of_slot(name) {
        Some(piece) => Ok(Target::Piece { piece, value: 0 }),
        None => Err(TargetFault::Unplaced),
    }
}

/// The import that is the module at a position, by its number behind the pieces.
pub(crate) fn import_target(index: &PieceIndex<'_>, position: u32) -> Result<Target, TargetFault>
    ensures { (link : LinkParts) → IsPieceIndex link index.now → result ≡ import_target link position }
{
    match index.of_import(position) {
        Some(piece) => Ok(Target::Piece { piece, value: 0 }),
        None => Err(TargetFault::Unplaced),
    }
}

/// The jump of the import that is the module at a position.
fn thunk_target(index: &PieceIndex<'_>, position: u32) -> Result<Target, TargetFault>
    ensures { (link : LinkParts) → IsPieceIndex link index.now → result ≡ thunk_target link position }
{
    match index.of_thunk(position) {
        Some(piece) => Ok(Target::Piece { piece, value: 0 }),
        None => Err(TargetFault::Unplaced),
    }
}
