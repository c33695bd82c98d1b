//! The two forms of a record of a contribution.

ghost use Rattle.std.specs.Prelude.{◌≡◌, ◌<◌};
ghost use Rattle.pdb_dbi.specs.Contribution.{form_of_version, record_size};

use crate::format::{
    CONTRIBUTION_V2_SIZE, CONTRIBUTION_VER60_SIZE, SECTION_CONTRIBUTIONS_V2,
    SECTION_CONTRIBUTIONS_VER60,
};

/// The form of the records, which the first word of their part tells.
#[derive(Clone, Copy)]
pub(crate) enum Form {
    /// Records that name no section of the object.
    Ver60,
    /// Records that do.
    V2,
}

impl Form {
    pub(crate) fn of_version(version: u32) -> Option<Form>
        ensures { result ≡ form_of_version version }
    {
        if version == SECTION_CONTRIBUTIONS_VER60 {
            Some(Form::Ver60)
        } else if version == SECTION_CONTRIBUTIONS_V2 {
            Some(Form::V2)
        } else {
            None
        }
    }

    /// The bytes of a record.
    pub(crate) fn record_size(self) -> usize
        ensures size { result ≡ record_size self }
        ensures some { 0 < result }
    {
        match self {
            Form::Ver60 => CONTRIBUTION_VER60_SIZE,
            Form::V2 => CONTRIBUTION_V2_SIZE,
        }
    }
}
