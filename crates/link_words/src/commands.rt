//! Which command a line of words is, and with what.

ghost use Rattle.std.specs.Prelude.{◌≡◌, ◌<◌, ◌≤◌, length, map, IfOk};
ghost use Rattle.std.specs.String.{string_bytes};
ghost use Rattle.link_words.specs.Outcome.{command_said};
ghost use Rattle.link_words.specs.SettingsView.{text_of};
ghost use Rattle.link_words.specs.Answers.{Answers};
ghost use Rattle.link_words.specs.Steps.{link_steps};
ghost use Rattle.link_words.specs.Commands.{text_word, number_word, at_says, show_says, gen_says, words_say, same};

use crate::errors::{UsageKind, WordsError, usage};
use crate::finish::finish;
use crate::options::Command;
use crate::words::given_by;
use directives::{is_text, number_up_to};
use std::alloc::Global;

/// The command of a line of words. An option of a link begins with `/` or `-`, has a name in either case and a value
/// after a colon; any other word is an input file. The last of an option's values counts, or all of them are gathered.
///
/// # Errors
/// `Usage` names the least word that is refused, by its index, and the first kind that holds of it; the index is 0
/// where the whole line is at fault. `Memory` comes for want of memory alone.
#[tactic(auto, unfolding(crate::specs::Commands::words_say))]
pub fn read_words<'w>(alloc: Global, words: &'w [String]) -> Result<Command<'w>, WordsError>
    ensures { Answers command_said (words_say (map string_bytes words.now)) result }
{
    let Some((command, rest)) = words.split_first() else {
        return Err(usage(0, UsageKind::Command));
    };
    if command.as_str() == "link" {
        return link(alloc, rest);
    }
    if command.as_str() == "at" && rest.len() == 4 {
        return at(words);
    }
    if command.as_str() == "show" && rest.len() == 5 {
        return show(words);
    }
    if command.as_str() == "gen" && rest.len() == 1 {
        return generate(words);
    }
    Err(usage(0, UsageKind::Command))
}

/// `link WORDS`.
#[tactic(auto, unfolding(crate::specs::Steps::link_steps))]
fn link<'w>(alloc: Global, words: &'w [String]) -> Result<Command<'w>, WordsError>
    ensures { Answers command_said (link_steps (map string_bytes words.now)) result }
{
    let given = given_by(alloc, words)?;
    let options = finish(alloc, given)?;
    Ok(Command::Link(options))
}

/// `at IMAGE BASE RVA LENGTH`.
#[tactic(auto, unfolding(crate::specs::Commands::at_says))]
fn at(words: &[String]) -> Result<Command<'_>, WordsError>
    requires { length words.now ≡ 5 }
    ensures { Answers command_said (at_says (map string_bytes words.now)) result }
{
    let image = text_word(words, 1)?;
    let base = number_word(words, 2, 0, u64::MAX)?;
    let rva = number_word(words, 3, 0, 0xffff_ffff)?;
    let length = number_word(words, 4, 0, 0x1_0000)?;
    Ok(Command::At {
        image,
        base,
        rva: rva as u32,
        length: length as u32,
    })
}

/// `show IMAGE PDB BASE SYMBOL LENGTH`.
#[tactic(auto, unfolding(crate::specs::Commands::show_says))]
fn show(words: &[String]) -> Result<Command<'_>, WordsError>
    requires { length words.now ≡ 6 }
    ensures { Answers command_said (show_says (map string_bytes words.now)) result }
{
    let image = text_word(words, 1)?;
    let pdb = text_word(words, 2)?;
    let base = number_word(words, 3, 0, u64::MAX)?;
    let symbol = text_word(words, 4)?;
    let length = number_word(words, 5, 0, 0x1_0000)?;
    Ok(Command::Show {
        image,
        pdb,
        base,
        symbol,
        length: length as u32,
    })
}

/// `gen N`.
#[tactic(auto, unfolding(crate::specs::Commands::gen_says))]
fn generate(words: &[String]) -> Result<Command<'_>, WordsError>
    requires { length words.now ≡ 2 }
    ensures { Answers command_said (gen_says (map string_bytes words.now)) result }
{
    let n = number_word(words, 1, 1, 2000)?;
    Ok(Command::Gen { n: n as u32 })
}

/// A word that is a name.
#[tactic(auto, unfolding(crate::specs::Commands::text_word))]
fn text_word(words: &[String], index: usize) -> Result<&str, WordsError>
    requires { index < length words.now }
    ensures { Answers text_of (text_word (map string_bytes words.now) index) result }
{
    let word = words[index].as_str();
    if !is_text(word.as_bytes()) {
        return Err(usage(index, UsageKind::BadValue));
    }
    Ok(word)
}

/// A word that is a number, from `low` to `high`.
#[tactic(auto, unfolding(crate::specs::Commands::number_word))]
fn number_word(words: &[String], index: usize, low: u64, high: u64) -> Result<u64, WordsError>
    requires { index < length words.now }
    ensures is { Answers same (number_word (map string_bytes words.now) index low high) result }
    ensures within { IfOk result (λ number. number ≤ high) }
{
    match number_up_to(words[index].as_bytes(), high) {
        Some(number) if number >= low => Ok(number),
        _ => Err(usage(index, UsageKind::BadValue)),
    }
}
