//! What the exports of a link stand for.

ghost use Rattle.std.specs.Prelude.{◌≡◌, ◌++◌, ◌∷◌, [], None, Some, IfOk, OnOk, IfErr};
ghost use Rattle.link_base.specs.Refusals.{RefusesFor};
ghost use Rattle.link_pieces.specs.PieceIndex.{IsPieceIndex};
ghost use Rattle.link_fields.specs.ExportTargets.{export_target, export_targets, export_fault, exports_fault};

use crate::entry::bad_entry;
use crate::targets::meant_target;
use directives::Export;
use link_base::{Fault, Memory, Refusal};
use link_pieces::{LinkNames, PieceIndex};
use relocate::Target;
use std::alloc::Global;
use symbol_names::internal_name;

/// What each export stands for, in their order; nothing where it is a forwarder. The first that does not come into the image is
/// refused.
pub(crate) fn export_targets<'a>(
    alloc: Global,
    names: &LinkNames<'a>,
    index: &PieceIndex<'a>,
) -> Result<Vec<Option<Target>>, Refusal<'a>>
    requires { IsPieceIndex names.now index.now }
    ensures targets { IfOk result (λ targets. targets.items ≡ export_targets names.now) }
    ensures accepted { OnOk result (exports_fault names.now ≡ None) }
    ensures refused { IfErr result (RefusesFor (exports_fault names.now)) }
{
    let rows = names.exports().rows();
    let mut targets = Vec::new(alloc);
    for row in rows {
        let target = export_target(names, index, row)?;
        push(&mut targets, target)?;
    }
    Ok(targets)
}

/// Appends what an export stands for.
fn push(targets: &mut Vec<Option<Target>>, target: Option<Target>) -> Result<(), Memory>
    ensures { OnOk result (targets.new.items ≡ targets.old.items ++ target ∷ []) }
{
    targets.push(target)?;
    Ok(())
}

/// What an export stands for.
fn export_target<'a>(
    names: &LinkNames<'a>,
    index: &PieceIndex<'a>,
    row: &Export<'a>,
) -> Result<Option<Target>, Fault<'a>>
    requires { IsPieceIndex names.now index.now }
    ensures target { IfOk result (λ target. target ≡ export_target names.now row.now) }
    ensures accepted { OnOk result (export_fault names.now row.now ≡ None) }
    ensures refused { IfErr result (λ fault. export_fault names.now row.now ≡ Some fault) }
{
    let Some(name) = internal_name(row) else {
        return Ok(None);
    };
    match meant_target(index, names.resolve(name)) {
        Ok(target) => Ok(Some(target)),
        Err(kind) => Err(bad_entry(kind)),
    }
}
