//! Which texts of a string table are longer than a name may be.

ghost use Rattle.std.specs.Prelude.{◌≡◌, ◌<◌, ◌≤◌, ◌+◌, length, nat_lt, IfOk, OnOk};
ghost use Rattle.coff_records.specs.StringTable.{is_long_text};
ghost use Rattle.coff_records.specs.SymbolRecord.{name_in};
ghost use Rattle.coff_records.specs.ObjectFile.{section_total, section_name_of, string_table};
ghost use Rattle.coff_object.specs.LongText.{with_span, IsNextNul, IsAfterLastNul, IsLongSpan};

use crate::object::Object;
use coff_records::SymbolRecord;
use link_base::{Memory, NAME_LIMIT, slice_in};
use memchr::{memchr, memrchr};
use std::alloc::Global;
use std::marker::Model;

/// The least offset of a text: the size of the table stands before it.
const FIRST_TEXT: usize = 4;

/// The span of a block in which no text is long.
const NO_TEXT: LongSpan = LongSpan { from: 0, until: 0 };

/// The offsets of a block at which long texts begin: those from `from` on, before `until`.
#[derive(Clone, Copy)]
struct LongSpan {
    from: usize,
    until: usize,
}

/// The texts of a string table that are longer than a name may be. The table is cut into blocks of as many bytes as a name may
/// have: a long text that begins in a block ends after it, so the offsets at which long texts begin stand together in it, and
/// are found by its last NUL and the next NUL after it. Nothing is kept where no text is long.
#[derive(Drop)]
pub struct LongTexts<'a> {
    strings: &'a [u8],
    spans: Vec<LongSpan>,
}

impl<'a> Model for LongTexts<'a> {
    ghost use Rattle.std.specs.Prelude.{List, ℕ};

    ghost Value = { List ℕ };

    ghost use Rattle.coff_object.specs.LongText.{HoldsSpans};

    ghost view = { λ texts. texts.strings.now };

    ghost invariant = { λ texts. HoldsSpans texts.strings.now texts.spans.items };
}

impl<'a> LongTexts<'a> {
    /// The long texts of a string table. In a table of no more bytes than a name may have, none is long.
    ///
    /// # Errors
    ///
    /// `Memory` alone.
    pub fn of(alloc: Global, strings: &'a [u8]) -> Result<LongTexts<'a>, Memory>
        ensures { IfOk result (λ texts. texts ≡ strings.now) }
    {
        if strings.len() <= NAME_LIMIT {
            return Ok(LongTexts::none(alloc, strings));
        }
        LongTexts::by_blocks(alloc, strings)
    }

    /// Those of a short table: none.
    fn none(alloc: Global, strings: &'a [u8]) -> LongTexts<'a>
        requires { length strings.now ≤ NAME_LIMIT }
        ensures { result ≡ strings.now }
    {
        LongTexts {
            strings,
            spans: Vec::new(alloc),
        }
    }

    /// Those of any table, by one pass over it that stops at few bytes of a block where no text is long.
    fn by_blocks(alloc: Global, strings: &'a [u8]) -> Result<LongTexts<'a>, Memory>
        ensures { IfOk result (λ texts. texts ≡ strings.now) }
    {
        let mut spans = Vec::new(alloc);
        let mut nul = first_nul(strings, 0);
        for index in 0..strings.len() / NAME_LIMIT + 1 {
            let start = NAME_LIMIT * index;
            let end = block_end(strings, start);
            nul = next_nul(strings, start, end, nul);
            put_span(&mut spans, index, long_span(strings, start, end, nul))?;
        }
        Ok(LongTexts { strings, spans })
    }

    /// Whether a text of more bytes than a name may have begins at an offset of the string table.
    pub fn is_long_at(&self, offset: usize) -> bool
        ensures { result ≡ is_long_text self.now offset }
    {
        match self.spans.get(offset / NAME_LIMIT) {
            Some(span) => span.from <= offset && offset < span.until,
            None => false,
        }
    }

    /// Whether a symbol's name is longer than a name may be, where this is its string table. The name is not looked at.
    #[tactic(auto, using(crate::proofs::LongTextLemmas::symbol_long))]
    pub fn is_long_symbol(&self, symbol: &SymbolRecord<'_>) -> bool
        requires { symbol.now.strings ≡ self.now }
        ensures { result ≡ nat_lt NAME_LIMIT (length (name_in symbol.now)) }
    {
        match symbol.long_name_offset() {
            Some(offset) => self.is_long_at(offset as usize),
            None => false,
        }
    }

    /// The same of a section of the object that has this string table.
    #[tactic(auto, using(crate::proofs::LongTextLemmas::section_long))]
    pub fn is_long_section(&self, object: &Object<'_>, i: u32) -> bool
        requires table { self.now ≡ string_table object.now }
        requires first { 1 ≤ i }
        requires last { i ≤ section_total object.now }
        ensures { result ≡ nat_lt NAME_LIMIT (length (section_name_of object.now i)) }
    {
        match object.section_name_offset(i) {
            Some(offset) => self.is_long_at(offset),
            None => false,
        }
    }
}

/// Puts the span of a block, where a text is long in it, behind those of the blocks before it. Blocks between them have none.
fn put_span(spans: &mut Vec<LongSpan>, index: usize, span: LongSpan) -> Result<(), Memory>
    requires { length spans.old.items ≤ index }
    ensures { OnOk result (spans.new.items ≡ with_span spans.old.items index span) }
{
    if span.from >= span.until {
        return Ok(());
    }
    spans.resize(index, NO_TEXT)?;
    spans.push(span)?;
    Ok(())
}

/// Where the block that begins at a place ends: after as many bytes as a name may have, or with the table.
fn block_end(strings: &[u8], start: usize) -> usize
    requires { start ≤ length strings.now }
    ensures low { start ≤ result }
    ensures high { result ≤ start + NAME_LIMIT }
    ensures within { result ≤ length strings.now }
    ensures reaches { result < start + NAME_LIMIT → result ≡ length strings.now }
{
    if strings.len() - start < NAME_LIMIT {
        strings.len()
    } else {
        start + NAME_LIMIT
    }
}

/// The first NUL at or after a place, or the end where there is none.
fn first_nul(strings: &[u8], at: usize) -> usize
    requires { at ≤ length strings.now }
    ensures { IsNextNul strings.now at result }
{
    match memchr(0, slice_in(strings, at, strings.len() - at)) {
        Some(place) => at + place,
        None => strings.len(),
    }
}

/// The same at the end of a block, by that at its start: it is looked for only where that one lies in the block.
fn next_nul(strings: &[u8], start: usize, end: usize, nul: usize) -> usize
    requires low { start ≤ end }
    requires high { end ≤ length strings.now }
    requires before { IsNextNul strings.now start nul }
    ensures { IsNextNul strings.now end result }
{
    if nul >= end {
        nul
    } else {
        first_nul(strings, end)
    }
}

/// The place after the last NUL of a block, or its start where there is none.
fn after_last_nul(strings: &[u8], start: usize, end: usize) -> usize
    requires low { start ≤ end }
    requires high { end ≤ length strings.now }
    ensures { IsAfterLastNul strings.now start end result }
{
    match memrchr(0, slice_in(strings, start, end - start)) {
        Some(last) => start + last + 1,
        None => start,
    }
}

/// The span of a block, by the next NUL after it.
fn long_span(strings: &[u8], start: usize, end: usize, nul: usize) -> LongSpan
    requires low { start ≤ end }
    requires high { end ≤ start + NAME_LIMIT }
    requires within { end ≤ length strings.now }
    requires reaches { end < start + NAME_LIMIT → end ≡ length strings.now }
    requires next { IsNextNul strings.now end nul }
    ensures { IsLongSpan strings.now start result }
{
    let from = after_last_nul(strings, start, end).max(FIRST_TEXT);
    let until = if nul < strings.len() {
        nul.saturating_sub(NAME_LIMIT)
    } else {
        0
    };
    LongSpan { from, until }
}
