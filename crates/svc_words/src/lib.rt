//! The words of a program's command line.
#![tactic(auto)]

ghost use Rattle.std.specs.Prelude.{◌≡◌, ◌≢◌, ◌++◌, true, IfOk, IfErr, IsErr, OnOk, MatchBool, drop, map, string_bytes};
ghost use Rattle.std.specs.IoError.{error_kind};
ghost use Rattle.std.specs.Rc.{rc_str_bytes};
ghost use Rattle.std.specs.Vec.Iter.{into_iter_items};
ghost use Rattle.svc_words.specs.WordLists.{not_text};

use std::alloc::Global;
use std::env::Args;
use std::io;
use std::io::ErrorKind;
use std::mem::drop;
use std::rc::RcStr;
use svc_base::NoMemory;

/// What stands for a command line of which a word isn't UTF-8.
const NOT_TEXT: &str = "\u{FFFD}";

/// Whether no word is known not to be UTF-8: one is where the words come with another error than that of
/// memory.
pub fn are_text(args: &io::Result<Args>) -> bool
    ensures given { IfOk args.now (λ given. result ≡ true) }
    ensures refused { IfErr args.now (λ error. MatchBool result (error_kind error ≡ ErrorKind.OutOfMemory) (error_kind error ≢ ErrorKind.OutOfMemory)) }
{
    match args {
        Ok(_) => true,
        Err(error) => error.kind() == ErrorKind::OutOfMemory,
    }
}

/// Appends the words that are left.
fn push_all(words: &mut Vec<RcStr>, mut args: Args) -> Result<(), NoMemory>
    ensures { OnOk result (map rc_str_bytes words.new.items ≡ map rc_str_bytes words.old.items ++ map string_bytes (into_iter_items args)) }
{
    while let Some(word) = args.next() {
        words.push(RcStr::from_string(word)?)?;
    }
    Ok(())
}

/// The words after the program's name.
fn words_of(alloc: Global, mut args: Args) -> Result<Vec<RcStr>, NoMemory>
    ensures { IfOk result (λ words. map rc_str_bytes words.items ≡ drop 1 (map string_bytes (into_iter_items args))) }
{
    let _ = args.next();
    let mut words = Vec::new(alloc);
    match push_all(&mut words, args) {
        Ok(()) => Ok(words),
        Err(NoMemory) => {
            drop(words);
            Err(NoMemory)
        }
    }
}

/// The one word that stands for a command line that is no text.
fn marked(alloc: Global) -> Result<Vec<RcStr>, NoMemory>
    ensures { IfOk result (λ words. map rc_str_bytes words.items ≡ not_text) }
{
    let word = RcStr::from_str(alloc, NOT_TEXT)?;
    let mut words = Vec::with_capacity(alloc, 1)?;
    words.push_reserved(word);
    Ok(words)
}

/// The words after the program's name, in order, of what the system gave. A command line of which a word
/// isn't UTF-8 has the one word `U+FFFD`, which no program takes. `NoMemory` where there is none for the
/// words.
pub fn words(alloc: Global, args: io::Result<Args>) -> Result<Vec<RcStr>, NoMemory>
    ensures words { IfOk args (λ given. IfOk result (λ words. map rc_str_bytes words.items ≡ drop 1 (map string_bytes (into_iter_items given)))) }
    ensures not_text { IfErr args (λ error. error_kind error ≢ ErrorKind.OutOfMemory → IfOk result (λ words. map rc_str_bytes words.items ≡ not_text)) }
    ensures no_memory { IfErr args (λ error. error_kind error ≡ ErrorKind.OutOfMemory → IsErr result) }
{
    if !are_text(&args) {
        drop(args);
        return marked(alloc);
    }
    match args {
        Ok(args) => words_of(alloc, args),
        Err(_) => Err(NoMemory),
    }
}
