//! What of a link is kept in any case.

ghost use Rattle.std.specs.Prelude.{◌≡◌, ◌++◌, ◌∷◌, ◌&&◌, ◌<◌, ◌≤◌, ◌^◌, [], not, length, map, filter_map, None, IfOk, IfSome, OnOk, option_and_then, if◌then◌else◌};
ghost use Rattle.std.specs.List.{cons_option, flat_map};
ghost use Rattle.link_base.specs.Bytes.{has_flag};
ghost use Rattle.link_base.specs.PeFormat as pe;
ghost use Rattle.link_base.specs.Limits.{MODULE_LIMIT};
ghost use Rattle.directives.specs.Said.{said};
ghost use Rattle.section_group.specs.BarePieces.{bare};
ghost use Rattle.link_words.specs.Outcome.{options_said};
ghost use Rattle.link_pieces.specs.LinkParts.{LinkParts};
ghost use Rattle.link_pieces.specs.Pieces.{link_pieces};
ghost use Rattle.link_pieces.specs.PieceIndex.{is_section, IsPieceIndex};
ghost use Rattle.link_fields.specs.Targets.{piece_in};
ghost use Rattle.link_fields.specs.Entry.{entry_place, piece_of_place};
ghost use Rattle.link_fields.specs.ExportTargets.{export_targets};
ghost use Rattle.link_keeping.specs.Reach.{node_of, name_node, named_nodes, included, included_by, included_names, plain_sections, link_roots};
ghost use Rattle.link_keeping.specs.LookedUp.{MeansNode};

use directives::Directive;
use link_base::pe_format::SCN_LNK_COMDAT;
use link_base::{Memory, Name, TargetFault};
use link_fields::{EntryPlace, NamedPlaces, meant_target};
use link_pieces::{FIRST_COMMON, LinkNames, PieceIndex};
use link_words::Options;
use module_view::Module;
use relocate::Target;
use section_group::Piece;
use std::alloc::Global;

/// A name, and what it means.
#[derive(Drop)]
struct NamedNode<'a> {
    name: Name<'a>,
    node: Option<u32>,
}

/// What the entry, the exports and the names that the loader of a program looks for mean: pieces, and imports by their numbers
/// behind these.
pub(crate) fn named_nodes<'a>(
    alloc: Global,
    names: &LinkNames<'a>,
    index: &PieceIndex<'a>,
    places: &NamedPlaces,
    options: &Options<'a>,
) -> Result<Vec<u32>, Memory>
    requires indexed { IsPieceIndex names.now index.now }
    requires entry { places.now.entry ≡ entry_place names.now (options_said options.now).entry_name }
    requires exported { places.now.exported.items ≡ export_targets names.now }
    ensures { IfOk result (λ nodes. nodes.items ≡ named_nodes (options_said options.now) names.now) }
{
    let mut nodes = Vec::new(alloc);
    push_node(&mut nodes, piece_of_place(&places.entry))?;
    push_exported(&mut nodes, &places.exported)?;
    push_name(&mut nodes, names, index, Name::of(b"_tls_used"))?;
    push_name(&mut nodes, names, index, Name::of(b"_load_config_used"))?;
    Ok(nodes)
}

/// Appends what is kept besides these: what the names mean that the command line and directives include, and the sections that
/// are no COMDAT sections.
pub(crate) fn push_roots<'a>(
    roots: &mut Vec<u32>,
    names: &LinkNames<'a>,
    index: &PieceIndex<'a>,
    modules: &[Module<'a>],
    pieces: &[Piece<'a>],
    options: &Options<'a>,
) -> Result<(), Memory>
    requires same { names.now.modules ≡ modules.now }
    requires indexed { IsPieceIndex names.now index.now }
    requires pieces { map bare pieces.now ≡ link_pieces names.now }
    requires few { length pieces.now < 2 ^ 31 }
    requires named { roots.old.items ≡ named_nodes (options_said options.now) names.now }
    ensures { OnOk result (roots.new.items ≡ link_roots (options_said options.now) names.now) }
{
    push_names(roots, names, index, &options.includes)?;
    push_included(roots, names, index, modules)?;
    push_plain(roots, pieces, modules.len())?;
    Ok(())
}

/// Appends a number, where there is one.
fn push_node(nodes: &mut Vec<u32>, node: Option<u32>) -> Result<(), Memory>
    ensures { OnOk result (nodes.new.items ≡ nodes.old.items ++ cons_option node []) }
{
    if let Some(node) = node {
        nodes.push(node)?;
    }
    Ok(())
}

/// The piece that the entry is in.
fn piece_of_place(place: &Option<EntryPlace>) -> Option<u32>
    ensures { result ≡ piece_of_place place.now }
{
    match place {
        Some(place) => Some(place.piece),
        None => None,
    }
}

/// Appends what the exports stand for.
fn push_exported(nodes: &mut Vec<u32>, targets: &[Option<Target>]) -> Result<(), Memory>
    ensures { OnOk result (nodes.new.items ≡ nodes.old.items ++ filter_map (option_and_then piece_in) targets.now) }
{
    for target in targets {
        push_node(nodes, exported_node(target))?;
    }
    Ok(())
}

/// What an export stands for, where it stands in a piece or is an import.
fn exported_node(target: &Option<Target>) -> Option<u32>
    ensures { result ≡ option_and_then piece_in target.now }
{
    match target {
        Some(Target::Piece { piece, .. }) => Some(*piece),
        _ => None,
    }
}

/// Appends what a name means.
fn push_name<'a>(
    nodes: &mut Vec<u32>,
    names: &LinkNames<'a>,
    index: &PieceIndex<'a>,
    name: Name<'a>,
) -> Result<(), Memory>
    requires { IsPieceIndex names.now index.now }
    ensures { OnOk result (nodes.new.items ≡ nodes.old.items ++ cons_option (name_node names.now name.entry) []) }
{
    push_node(nodes, node_of(meant_target(index, names.resolve(name))))
}

/// The piece that a target stands in, or behind the pieces the import.
fn node_of(target: Result<Target, TargetFault>) -> Option<u32>
    ensures { result ≡ node_of target }
{
    match target {
        Ok(Target::Piece { piece, .. }) => Some(piece),
        _ => None,
    }
}

/// Appends what some names mean.
fn push_names<'a>(
    nodes: &mut Vec<u32>,
    names: &LinkNames<'a>,
    index: &PieceIndex<'a>,
    list: &[Name<'a>],
) -> Result<(), Memory>
    requires { IsPieceIndex names.now index.now }
    ensures { OnOk result (nodes.new.items ≡ nodes.old.items ++ filter_map (name_node names.now) list.now) }
{
    for name in list {
        push_name(nodes, names, index, name.again())?;
    }
    Ok(())
}

/// Appends what the names mean that the directives of these modules include.
fn push_included<'a>(
    nodes: &mut Vec<u32>,
    names: &LinkNames<'a>,
    index: &PieceIndex<'a>,
    modules: &[Module<'a>],
) -> Result<(), Memory>
    requires { IsPieceIndex names.now index.now }
    ensures { OnOk result (nodes.new.items ≡ nodes.old.items ++ filter_map (name_node names.now) (flat_map included_by modules.now)) }
{
    for module in modules {
        push_included_by(nodes, names, index, module.directives())?;
    }
    Ok(())
}

/// Appends what the names mean that some directives include.
fn push_included_by<'a>(
    nodes: &mut Vec<u32>,
    names: &LinkNames<'a>,
    index: &PieceIndex<'a>,
    directives: &[Directive<'a>],
) -> Result<(), Memory>
    requires { IsPieceIndex names.now index.now }
    ensures { OnOk result (nodes.new.items ≡ nodes.old.items ++ filter_map (name_node names.now) (filter_map included (map said directives.now))) }
{
    let mut last = None;
    for directive in directives {
        push_if(nodes, names, index, included(directive), &mut last)?;
    }
    Ok(())
}

/// Appends what a name means, where there is one, and notes it as the last one.
fn push_if<'a>(
    nodes: &mut Vec<u32>,
    names: &LinkNames<'a>,
    index: &PieceIndex<'a>,
    name: Option<Name<'a>>,
    last: &mut Option<NamedNode<'a>>,
) -> Result<(), Memory>
    requires index { IsPieceIndex names.now index.now }
    requires last { IfSome last.old (MeansNode names.now) }
    ensures nodes { OnOk result (nodes.new.items ≡ nodes.old.items ++ filter_map (name_node names.now) (cons_option name.entry [])) }
    ensures last { IfSome last.new (MeansNode names.now) }
{
    match name {
        Some(name) => {
            let node = node_again(names, index, last, &name);
            *last = Some(NamedNode { name, node });
            push_node(nodes, node)
        }
        None => Ok(()),
    }
}

/// What a name means, which directives often say more than once in a row: then it is not looked up again.
fn node_again<'a>(
    names: &LinkNames<'a>,
    index: &PieceIndex<'a>,
    last: &Option<NamedNode<'a>>,
    name: &Name<'a>,
) -> Option<u32>
    requires index { IsPieceIndex names.now index.now }
    requires last { IfSome last.now (MeansNode names.now) }
    ensures { result ≡ name_node names.now name.now }
{
    if let Some(one) = last {
        if one.name == *name {
            return one.node;
        }
    }
    node_of(meant_target(index, names.resolve(name.again())))
}

/// The name that a directive includes.
fn included<'a>(directive: &Directive<'a>) -> Option<Name<'a>>
    ensures { result ≡ included (said directive.now) }
{
    match directive {
        Directive::Include(name) => Some(name.again()),
        _ => None,
    }
}

/// Appends the sections that are no COMDAT sections, of so many modules.
fn push_plain<'a>(nodes: &mut Vec<u32>, pieces: &[Piece<'a>], modules: usize) -> Result<(), Memory>
    requires { length pieces.now < 2 ^ 31 }
    ensures { OnOk result ((link : LinkParts) → map bare pieces.now ≡ link_pieces link → modules ≡ length link.modules
        → nodes.new.items ≡ nodes.old.items ++ plain_sections link) }
{
    for k in 0..pieces.len() {
        push_if_plain(nodes, k as u32, &pieces[k], modules)?;
    }
    Ok(())
}

/// Appends the number of a piece, where it is such a section.
fn push_if_plain(
    nodes: &mut Vec<u32>,
    k: u32,
    piece: &Piece<'_>,
    modules: usize,
) -> Result<(), Memory>
    ensures { OnOk result (nodes.new.items ≡ nodes.old.items
        ++ (if is_section modules piece.now && not (has_flag piece.now.flags pe.SCN_LNK_COMDAT) then k ∷ [] else [])) }
{
    if is_plain(piece, modules) {
        nodes.push(k)?;
    }
    Ok(())
}

/// Whether a piece is a section of one of so many modules, and no COMDAT section.
fn is_plain(piece: &Piece<'_>, modules: usize) -> bool
    ensures { result ≡ (is_section modules piece.now && not (has_flag piece.now.flags pe.SCN_LNK_COMDAT)) }
{
    (piece.module as usize) < modules
        && piece.number < FIRST_COMMON
        && piece.flags & SCN_LNK_COMDAT == 0
}
