//! The line with which a program ended.

ghost use Rattle.std.specs.Prelude.{◌≡◌, ◌-◌, [], drop, length};
ghost use Rattle.std.specs.Str.Lines.{lines};
ghost use Rattle.svc_messages.specs.Messages.{last_or};

use svc_base::split_line;

/// The most bytes of a last line: a status line has fewer.
const MOST: usize = 128;

/// The last of the lines that the last 128 bytes of a text have, without its line feed; nothing where there
/// is none.
pub fn last_line(text: &[u8]) -> &[u8]
    ensures { result.now ≡ last_or [] (lines (drop (length text.now - 128) text.now)) }
{
    let mut last: &[u8] = &[];
    let mut rest = &text[text.len().saturating_sub(MOST)..];
    while let Some((line, after)) = split_line(rest) {
        last = line;
        rest = after;
    }
    last
}
