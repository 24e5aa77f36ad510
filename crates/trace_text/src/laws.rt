// What is written of a text is read again: the function carries the theorem, and does nothing else.
ghost use Rattle.trace_text.specs.Laws.{ReadsBack};

/// Of every text that is read: the bytes that are written are read as the same policy, which is not refused, and as the
/// same requests.
pub fn reads_back_stands()
    ensures { ReadsBack }
{}
