//! The plan of a link.

ghost use Rattle.std.specs.Prelude.{◌≡◌, ◌≤◌, ◌<◌, ◌-◌, ◌^◌, length, map, IfOk, IfErr};
ghost use Rattle.link_base.specs.Limits.{MODULE_LIMIT};
ghost use Rattle.link_base.specs.Refusals.{RefusesFor};
ghost use Rattle.link_words.specs.Outcome.{options_said};
ghost use Rattle.link_files.specs.Outside.{files_of};
ghost use Rattle.lib_search.specs.LinkOf.{link_of};
ghost use Rattle.res_merge.specs.Entries.{entry_of};
ghost use Rattle.res_merge.specs.Order.{AreMergeable};
ghost use Rattle.res_merge.specs.Found.{AreNumbered};
ghost use Rattle.link_plan.specs.PlanFaults.{plan_fault};
ghost use Rattle.link_plan.specs.Plan.{link_parts, plan_resources, IsPlanOf};
ghost use Rattle.link_plan.specs.Planning.{Plans};

use crate::laid::{LaidLink, LaidPieces, lay_pieces};
use crate::meanings::meanings_of;
use crate::mismatch::check_mismatch;
use debug_rows::PublicPlace;
use input_arena::Inputs;
use lib_search::{LinkList, complete};
use link_base::{Name, Refusal, Stop};
use link_debug::LinkDebug;
use link_directives::link_merges;
use link_exports::link_exports;
use link_fields::{EntryPlace, LoaderPlaces};
use link_files::{Files, Gate};
use link_imports::LinkImports;
use link_pieces::{LinkNames, check_clash, link_names};
use link_resources::LinkResources;
use link_words::Options;
use module_view::Module;
use relocate::{Fixups, Target};
use section_group::Piece;
use std::alloc::Global;
use std::thread::Threads;

/// What a link will hold.
#[derive(Drop)]
pub struct LinkPlan<'a> {
    /// The modules, in the order of joining.
    pub modules: Vec<Module<'a>>,
    /// What the names of the modules mean.
    pub names: LinkNames<'a>,
    /// The pieces of the link: module by module, and in each its sections before its commons; then those that the
    /// linker makes, of which the tables come last and hold nothing yet.
    pub pieces: Vec<Piece<'a>>,
    /// Whether each piece but the tables is kept, and behind these whether the import that is the module at each position is.
    pub kept: Vec<bool>,
    /// The piece at whose place each piece stands; behind the end of the list, and so of all where nothing folds, its own. One that
    /// stands at the place of another is not kept.
    pub place_of: Vec<u32>,
    /// The fields of each piece that is kept.
    pub fixes: Vec<Fixups>,
    /// The imports that are kept, as rows of import tables.
    pub imports: LinkImports<'a>,
    /// The merges of sections: those of the options, then those of the directives.
    pub merges: Vec<(Name<'a>, Name<'a>)>,
    /// Where the image begins, where it begins at all.
    pub entry: Option<EntryPlace>,
    /// What each export stands for, in the order of the exports of `names`; nothing where it is a forwarder.
    pub exported: Vec<Option<Target>>,
    /// Where the names stand that the loader of a program looks for.
    pub loader: LoaderPlaces,
    /// The public symbols of what is kept, where a map or a PDB lists them.
    pub publics: Vec<PublicPlace<'a>>,
}

/// The plan of a link with these options. Its inputs are read and opened, and the search of libraries joins what these ask
/// for; what ends that ends the link. Then the input is refused for the first of: directives that give one key different values
/// (`Mismatch`), COMDAT sections that conflict (`ComdatConflict`), two definitions of one name (`Duplicate`), an entry or
/// another name that nothing defines (`Undefined`) or whose default or alternate leads back to it (`WeakCycle`), an entry, an
/// export or what a local slot points to that has no place in the image (`BadTarget`), and a relocation that is malformed or
/// whose target cannot be used (`BadReloc`, `BadTarget`).
pub fn plan<'a, R: Threads + Sync, F: Files, G: Gate>(
    rt: &R,
    alloc: Global,
    files: &mut F,
    inputs: &mut Inputs<'a>,
    options: &Options<'a>,
    gate: &G,
) -> Result<LinkPlan<'a>, Stop<'a>>
    requires reads_below { F.read_faults files.old < 2 ^ 64 - 1 }
    requires writes_below { F.write_faults files.old < 2 ^ 64 - 1 }
    requires none_read { inputs.old ≡ 0 }
    ensures { Plans (options_said options.now)
        (files_of F.store F.read_faults F.write_faults files.old)
        (files_of F.store F.read_faults F.write_faults files.new) result }
{
    match complete(rt, alloc, files, inputs, options, gate) {
        Ok(list) => match plan_of(alloc, list, options) {
            Ok(plan) => Ok(plan),
            Err(refusal) => Err(Stop::from(refusal)),
        },
        Err(stop) => Err(stop),
    }
}

/// The plan of a link of these modules.
fn plan_of<'a>(
    alloc: Global,
    list: LinkList<'a>,
    options: &Options<'a>,
) -> Result<LinkPlan<'a>, Refusal<'a>>
    requires few { length list.modules.items ≤ MODULE_LIMIT }
    requires names { list.table ≡ link_of (options_said options.now) list.modules.items }
    requires mergeable { AreMergeable (map entry_of list.resources.items) }
    requires numbered { AreNumbered (map entry_of list.resources.items) }
    ensures planned { IfOk result (IsPlanOf (options_said options.now) list.entry.modules.items) }
    ensures modules { IfOk result (λ plan. plan.modules.items ≡ list.entry.modules.items) }
    ensures resources { IfOk result (λ plan. plan_resources plan ≡ map entry_of list.entry.resources.items) }
    ensures refused { IfErr result (RefusesFor (plan_fault (options_said options.now) (link_parts (options_said options.now) list.entry.modules.items (map entry_of list.entry.resources.items)))) }
{
    let LinkList {
        modules,
        table,
        resources,
    } = list;
    check_mismatch(alloc, &modules)?;
    let exports = link_exports(alloc, options, &modules)?;
    let debug = LinkDebug::of(alloc, options)?;
    let resources = LinkResources::of(alloc, options, resources)?;
    let names = link_names(alloc, table, &modules, exports, debug, resources)?;
    check_clash(&names)?;
    let meant = meanings_of(alloc, &names, &modules, options)?;
    let link = lay_pieces(alloc, &names, &modules, meant, options)?;
    let merges = link_merges(alloc, &options.merges, &modules)?;
    let LaidLink { laid, publics } = link;
    let LaidPieces {
        pieces,
        kept,
        place_of,
        fixes,
        imports,
        entry,
        exported,
        loader,
    } = laid;
    Ok(LinkPlan {
        modules,
        names,
        pieces,
        kept,
        place_of,
        fixes,
        imports,
        merges,
        entry,
        exported,
        loader,
        publics,
    })
}
