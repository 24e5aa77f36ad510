// What stands between the blanks of a line, piece by piece.
ghost use Rattle.std.specs.Prelude.{◌≡◌};
ghost use Rattle.std.specs.Iterator.{YieldsFirstRef, item_count};
ghost use Rattle.trace_text.specs.Words.{blank, pieces};

// Spaces, tabs and carriage returns; `is_ascii_whitespace` takes line and form feeds too.
pub(crate) fn is_blank(byte: u8) -> bool
    ensures { result ≡ blank byte }
{
    matches!(byte, b' ' | b'\t' | b'\r')
}

// The pieces that are left. By hand, since `split` gives an empty piece for each further blank of a run.
#[derive(Drop)]
pub(crate) struct Pieces<'a> {
    pub(crate) rest: &'a [u8],
}

impl<'a> Iterator for Pieces<'a> {
    type Item = &'a [u8];

    ghost next_gives = { YieldsFirstRef (λ s. pieces s.rest.now) };

    ghost remaining = { item_count (λ s. pieces s.rest.now) };

    fn next(&mut self) -> Option<&'a [u8]> {
        let start = self.rest.iter().position(|byte| !is_blank(*byte))?;
        let rest = &self.rest[start..];
        let end = rest
            .iter()
            .position(|byte| is_blank(*byte))
            .unwrap_or(rest.len());
        let (piece, rest) = rest.split_at(end);
        self.rest = rest;
        Some(piece)
    }
}
