// What a program reads: a file that its command line names, or standard input.
ghost use Rattle.std.specs.Prelude.{◌≡◌, ◌∷◌, [], map, None, Some, IfOk, IfErr, IfSome, OnErr, option_map};
ghost use Rattle.std.specs.String.{string_bytes};
ghost use Rattle.command_line.specs.Inputs.{IsReadFailure, input_name};
ghost use Rattle.command_line.specs.Words.{file_in};
ghost use Rattle.command_line.specs.declared.stop.Stop.TheVariants.{Usage};

use crate::{Flag, Stop};
use std::alloc::Global;
use std::fs::File;
use std::io::{self, Input, Read};
use std::rt::Files;

/// The file that the words after a program's own name, or none for standard input.
pub fn file_of(words: &[String]) -> Result<Option<&str>, Stop>
    ensures file { IfOk result (λ file. Some (option_map (λ s. s.now) file) ≡ file_in (map string_bytes words.now)) }
    ensures none { OnErr result (file_in (map string_bytes words.now) ≡ None) }
    ensures usage { IfErr result (λ stop. stop ≡ Usage) }
{
    match words {
        [] => Ok(None),
        [word] => file_by_name(word.as_str()),
        _ => Err(Stop::Usage),
    }
}

fn file_by_name(word: &str) -> Result<Option<&str>, Stop>
    ensures file { IfOk result (λ file. Some (option_map (λ s. s.now) file) ≡ file_in (word.now ∷ [])) }
    ensures none { OnErr result (file_in (word.now ∷ []) ≡ None) }
    ensures usage { IfErr result (λ stop. stop ≡ Usage) }
{
    if word == "-" {
        Ok(None)
    } else if Flag::of(word).is_some() {
        Err(Stop::Usage)
    } else {
        Ok(Some(word))
    }
}

/// All that the file holds, or standard input. Only reading fails, and memory.
pub fn read<R: Files + Input + AllocGlobal>(rt: &R, file: Option<&str>) -> Result<Vec<u8>, Stop>
    ensures { IfErr result (IsReadFailure (input_name (option_map (λ s. s.now) file.entry))) }
{
    match file {
        Some(name) => match File::open(rt, name) {
            Ok(mut file) => read_all(rt.alloc(), name, &mut file),
            Err(error) => Err(read_failure(rt.alloc(), name, error)),
        },
        None => read_all(rt.alloc(), "standard input", &mut rt.reader()),
    }
}

fn read_all<R: Read>(heap: Global, name: &str, reader: &mut R) -> Result<Vec<u8>, Stop>
    ensures bytes { IfOk result (λ bytes. IfSome (R.remaining reader.old) (λ all. bytes.items ≡ all)) }
    ensures failure { IfErr result (IsReadFailure name.now) }
{
    let mut bytes = Vec::new(heap);
    match reader.read_to_end(&mut bytes) {
        Ok(_) => Ok(bytes),
        Err(error) => Err(read_failure(heap, name, error)),
    }
}

fn read_failure(heap: Global, name: &str, error: io::Error) -> Stop
    ensures { IsReadFailure name.now result }
{
    match String::from_str(heap, name) {
        Ok(name) => Stop::Read { name, error },
        Err(_) => Stop::OutOfMemory,
    }
}
