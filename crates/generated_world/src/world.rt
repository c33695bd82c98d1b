//! The files of a program, and the words that link it.

ghost use Rattle.std.specs.Prelude.{◌≡◌, ◌≤◌, map, string_bytes, IfOk};
ghost use Rattle.generated_world.specs.GeneratedWorld.{generated_files, generated_words};

use crate::names::numbered;
use crate::object::object_bytes;
use link_base::Memory;
use link_files::NeverFails;
use std::alloc::Global;

/// The files of a program with so many functions: an object for each, named `o0`, `o1` and so on. In it the function `f0`,
/// `f1` and so on calls the next one, the last one the first, and holds the address of another one. No read and no
/// write of them fails.
pub fn world_files(alloc: Global, count: u32) -> Result<NeverFails, Memory>
    requires some { 1 ≤ count }
    requires few { count ≤ 2000 }
    ensures { IfOk result (λ files. files ≡ generated_files count) }
{
    let mut files = NeverFails::new(alloc);
    for index in 0..count {
        let name = numbered(alloc, "o", index)?;
        let object = object_bytes(alloc, count, index)?;
        files.add(name.as_str(), &object)?;
    }
    Ok(files)
}

/// The words that link the program: `link`, the names of its files, `/ENTRY:f0` and `/OUT:g.exe`.
pub fn world_words(alloc: Global, count: u32) -> Result<Vec<String>, Memory>
    requires some { 1 ≤ count }
    requires few { count ≤ 2000 }
    ensures { IfOk result (λ words. map string_bytes words.items ≡ generated_words count) }
{
    let mut words = Vec::new(alloc);
    words.push(String::from_str(alloc, "link")?)?;
    for index in 0..count {
        words.push(numbered(alloc, "o", index)?)?;
    }
    words.push(String::from_str(alloc, "/ENTRY:f0")?)?;
    words.push(String::from_str(alloc, "/OUT:g.exe")?)?;
    Ok(words)
}
