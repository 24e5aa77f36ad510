// The options of a command line.
ghost use Rattle.std.specs.Prelude.{◌≡◌, map};
ghost use Rattle.std.specs.String.{string_bytes};
ghost use Rattle.command_line.specs.Words.{flag_in, flag_of};

/// An option that a command line begins with.
#[derive(Clone, Copy, PartialEq, Eq, Debug)]
pub enum Flag {
    Help,
    Version,
    /// One that no program of this repository has.
    Unknown,
}

impl Flag {
    /// The option that the words begin with, if they do.
    pub fn first(words: &[String]) -> Option<Flag>
        ensures { result ≡ flag_in (map string_bytes words.now) }
    {
        match words {
            [] => None,
            [word, ..] => Flag::of(word.as_str()),
        }
    }

    // The option that a word is, if it is one: `-` alone is none.
    pub(crate) fn of(word: &str) -> Option<Flag>
        ensures { result ≡ flag_of word.now }
    {
        match word {
            "--help" => Some(Flag::Help),
            "--version" => Some(Flag::Version),
            "-" => None,
            _ if word.starts_with("-") => Some(Flag::Unknown),
            _ => None,
        }
    }
}
