//! Files in an arena, and how many bytes they have together.

ghost use Rattle.std.specs.Prelude.{◌≡◌, ◌<◌, ◌-◌, ◌^◌, IfOk};
ghost use Rattle.link_files.specs.Outside.{files_of};
ghost use Rattle.input_arena.specs.Loaded.{LoadsFile};

use crate::error::LoadError;
use bumpalo::Bump;
use bumpalo::collections::into_bump_slice;
use link_base::{FILE_LIMIT, INPUT_LIMIT, Memory};
use link_files::{FileError, Files};
use std::marker::Model;

/// The inputs of a link, whose bytes stay in an arena as long as it is borrowed. Contracts see how many bytes the
/// files have together.
#[derive(Drop)]
pub struct Inputs<'a> {
    arena: &'a Bump,
    total: u64,
}

impl<'a> Model for Inputs<'a> {
    ghost use Rattle.std.specs.Prelude.{ℕ, ◌≤◌};
    ghost use Rattle.link_base.specs.Limits.{INPUT_LIMIT as most};

    ghost Value = { ℕ };

    ghost view = { λ inputs. inputs.total };

    ghost invariant = { λ inputs. inputs.total ≤ most };
}

impl<'a> Inputs<'a> {
    /// No inputs yet, which are to stand in this arena.
    pub fn new(arena: &'a Bump) -> Inputs<'a>
        ensures { result ≡ 0 }
    {
        Inputs { arena, total: 0 }
    }

    /// How many bytes the files that were loaded have together.
    pub fn total(&self) -> u64
        ensures { result ≡ self.now }
    {
        self.total
    }

    /// Reads the file of this name once, and gives its bytes, which stay in the arena. A file that was read before is
    /// read and counted again. What is refused is not counted; each error comes as `LoadError` says.
    pub fn load<F: Files>(&mut self, files: &mut F, name: &str) -> Result<&'a [u8], LoadError>
        requires reads_below { F.read_faults files.old < 2 ^ 64 - 1 }
        requires writes_below { F.write_faults files.old < 2 ^ 64 - 1 }
        ensures { LoadsFile name.now self.old self.new
            (files_of F.store F.read_faults F.write_faults files.old)
            (files_of F.store F.read_faults F.write_faults files.new) result }
    {
        match files.read(self.arena, name, FILE_LIMIT) {
            Ok(bytes) => {
                let sum = self.total + bytes.len() as u64;
                if sum > INPUT_LIMIT {
                    return Err(LoadError::InputLimit { sum });
                }
                self.total = sum;
                Ok(into_bump_slice(bytes))
            }
            Err(FileError::NotFound) => Err(LoadError::NotFound),
            Err(FileError::TooLarge) => Err(LoadError::TooLarge),
            Err(FileError::Fault) => Err(LoadError::Fault),
            Err(FileError::Memory) => Err(LoadError::Memory),
        }
    }

    /// A copy of the text that stays in the arena. It is no input, and is not counted.
    pub fn text(&mut self, text: &str) -> Result<&'a str, Memory>
        ensures copied { IfOk result (λ copy. copy.now ≡ text.now) }
        ensures total_kept { self.new ≡ self.old }
    {
        Ok(self.arena.try_alloc_str(text)?)
    }
}
