//! A short import that was opened.

ghost use Rattle.std.specs.Prelude.{◌≡◌, None, IfOk, OnOk, IfErr};
ghost use Rattle.module_view.specs.ImportModule.{import_in, import_definitions};
ghost use Rattle.module_view.specs.Opening.{import_error, RefusesToOpen};

use crate::definition::Definition;
use crate::error::ModuleError;
use crate::import::{definition_count, definitions_by, read_import};
use arrayvec::ArrayVec;
use short_import::Import;
use std::marker::Model;

/// A short import, and what it defines. It takes no memory.
#[derive(Drop)]
pub(crate) struct OpenImport<'a> {
    import: Import<'a>,
    definitions: ArrayVec<Definition<'a>, 2>,
}

impl<'a> Model for OpenImport<'a> {
    ghost use Rattle.std.specs.Prelude.{◌≡◌, length, take};
    ghost use Rattle.short_import.specs.declared.import.Import.{Import};
    ghost use Rattle.module_view.specs.ImportModule.{import_definitions};

    ghost Value = { Import };

    ghost view = { λ m. m.import };

    ghost invariant = { λ m. take (length (import_definitions m.import)) m.definitions.items ≡ import_definitions m.import };
}

impl<'a> OpenImport<'a> {
    /// The short import in these bytes, refused as `read_import` does.
    pub(crate) fn read(bytes: &'a [u8]) -> Result<OpenImport<'a>, ModuleError>
        ensures read { IfOk result (λ import. import ≡ import_in bytes.now) }
        ensures accepted { OnOk result (import_error bytes.now ≡ None) }
        ensures refused { IfErr result (RefusesToOpen (import_error bytes.now)) }
    {
        let import = match read_import(bytes) {
            Ok(import) => import,
            Err(error) => return Err(error),
        };
        let definitions = definitions_by(bytes, &import);
        Ok(OpenImport {
            import,
            definitions,
        })
    }

    /// Its fields.
    pub(crate) fn import(&self) -> &Import<'a>
        ensures { result.now ≡ self.now }
    {
        &self.import
    }

    /// What it defines.
    pub(crate) fn definitions(&self) -> &[Definition<'a>]
        ensures { result.now ≡ import_definitions self.now }
    {
        &self.definitions.as_slice()[..definition_count(&self.import)]
    }
}
