//! The directives of a text, one after another.

ghost use Rattle.std.specs.Prelude.{◌≤◌, length};

use crate::item::{BadDirective, Directive};
use crate::words::{is_blank, word_len, word_says};

const BYTE_ORDER_MARK: &[u8] = b"\xef\xbb\xbf";

/// The directives of one text, in their order. A malformed one is the last item; it is named by its offset
/// in the text that was handed in. A byte order mark at the start is passed over.
///
/// The text holds words between blanks (blank, tabulator, line feed, carriage return, NUL), with quotes round
/// what holds blanks itself. A word that begins with `/` or `-` is an option: a name in either case, and a
/// value after a colon. Other words, and options that the linker does not know, are passed over.
#[derive(Drop)]
pub struct Directives<'a> {
    text: &'a [u8],
    at: usize,
    ghost within: { at ≤ length text.now },
}

impl<'a> Directives<'a> {
    ghost use Rattle.std.specs.Prelude.{◌≡◌};
    ghost use Rattle.directives.specs.Words.{directives_of};
    ghost use Rattle.directives.specs.Left.{items_left};

    /// The directives of the bytes of one section.
    #[tactic(auto, unfolding(crate::specs::Words::directives_of))]
    pub fn new(bytes: &'a [u8]) -> Directives<'a>
        ensures { items_left result ≡ directives_of bytes.now }
    {
        if bytes.starts_with(BYTE_ORDER_MARK) {
            return Directives { text: bytes, at: 3 };
        }
        Directives { text: bytes, at: 0 }
    }
}

impl<'a> Iterator for Directives<'a> {
    type Item = Result<Directive<'a>, BadDirective>;

    ghost use Rattle.std.specs.Iterator.{YieldsFirstBy, item_count};
    ghost use Rattle.directives.specs.Said.{item_said};
    ghost use Rattle.directives.specs.Left.{items_left};

    ghost next_gives = { YieldsFirstBy item_said items_left };

    ghost remaining = { item_count items_left };

    fn next(&mut self) -> Option<Result<Directive<'a>, BadDirective>> {
        while self.at < self.text.len() {
            let (_, rest) = self.text.split_at(self.at);
            if is_blank(rest[0]) {
                self.at += 1;
                continue;
            }
            let start = self.at;
            let len = word_len(rest);
            let (word, _) = rest.split_at(len);
            let is_last = len == rest.len();
            self.at += len;
            match word_says(start, word, is_last) {
                None => {}
                Some(Ok(directive)) => return Some(Ok(directive)),
                Some(Err(bad)) => {
                    self.at = self.text.len();
                    return Some(Err(bad));
                }
            }
        }
        None
    }
}
