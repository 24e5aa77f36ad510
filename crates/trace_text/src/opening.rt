// Where a text begins.
ghost use Rattle.std.specs.Prelude.{◌≡◌};
ghost use Rattle.std.specs.Option.{option_map};
ghost use Rattle.trace_text.specs.Said.{first_line_with_words};
ghost use Rattle.trace_text.specs.Words.{lines, without_mark};

use crate::line::Line;

// The text without a byte order mark at its beginning.
pub(crate) fn without_mark(text: &[u8]) -> &[u8]
    ensures { result.now ≡ without_mark text.now }
{
    match text {
        [0xef, 0xbb, 0xbf, rest @ ..] => rest,
        _ => text,
    }
}

// The first line that has a word.
pub(crate) fn first_line_with_words(text: &[u8]) -> Option<&[u8]>
    ensures { option_map (λ line. line.now) result ≡ first_line_with_words (lines text.now) }
{
    text.split(|byte| *byte == b'\n')
        .find(|bytes| !Line { bytes }.is_silent())
}
