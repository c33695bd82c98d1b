//! The lines that describe a library.

use crate::error::RowError;
use crate::library::{Library, Member};
use crate::numbered::{Part, numbered, numbered_words};
use crate::object::{Form, Object};
use crate::object_lines::{add_object_line, len_at};
use crate::words::{Word, copy_at, word_at};
use std::alloc::Global;

/// Adds what a line says to the library.
pub fn add_library_line(
    alloc: Global,
    library: &mut Library,
    keyword: &str,
    words: &[Word],
) -> Result<(), RowError> {
    match keyword {
        "member" => add_members(alloc, library, word_at(words, 0)?, 1),
        "members" => add_members(alloc, library, word_at(words, 1)?, len_at(words, 0)?),
        _ => match library.groups.last_mut() {
            Some(members) => add_alike(alloc, members, keyword, words),
            None => Err(RowError::Malformed("no member stands above")),
        },
    }
}

/// `member NAME` or `members COUNT NAME`
fn add_members(
    alloc: Global,
    library: &mut Library,
    name: &str,
    count: usize,
) -> Result<(), RowError> {
    let mut members = Vec::new(alloc);
    for index in 0..count {
        members.push(Member {
            name: numbered(alloc, name, Part { index, count })?,
            object: Object::new(alloc, Form::Plain),
            listed: Vec::new(alloc),
        })?;
    }
    library.groups.push(members)?;
    Ok(())
}

/// Adds what a line says to each of the members that the last such line made.
fn add_alike(
    alloc: Global,
    members: &mut Vec<Member>,
    keyword: &str,
    words: &[Word],
) -> Result<(), RowError> {
    let count = members.len();
    let mut index: usize = 0;
    for member in members.iter_mut() {
        let words = numbered_words(alloc, words, Part { index, count })?;
        add_member_line(alloc, member, keyword, &words)?;
        index = index.saturating_add(1);
    }
    Ok(())
}

/// `lists NAME`, or a line of an object.
fn add_member_line(
    alloc: Global,
    member: &mut Member,
    keyword: &str,
    words: &[Word],
) -> Result<(), RowError> {
    if keyword == "lists" {
        member.listed.push(copy_at(alloc, words, 0)?)?;
        return Ok(());
    }
    add_object_line(alloc, &mut member.object, keyword, words)
}
