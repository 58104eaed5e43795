//! Lines of texts whose parts are a script's.

ghost use Rattle.std.specs.Prelude.{◌≡◌, IfOk};
ghost use Rattle.svc_base.specs.Words.{words};
ghost use Rattle.svc_text.specs.Script.{is_header, is_skipped};
ghost use Rattle.svc_main.specs.TextLines.{is_daemon};

use std::alloc::Global;
use std::str;
use svc_base::{NoMemory, split_word};
use svc_conf::{ReadError, ServerConf};

/// The line begins a part of a script.
#[tactic(auto, unfolding(svc_text::specs::Script::header_of))]
pub fn is_header(line: &[u8]) -> bool
    ensures { result ≡ is_header line.now }
{
    line == b"%conf".as_slice() || line == b"%services".as_slice() || line == b"%events".as_slice()
}

/// The line is blank, or a comment.
#[tactic(auto, unfolding(svc_text::specs::Script::is_skipped))]
pub fn is_skipped(line: &[u8]) -> bool
    ensures { result ≡ is_skipped (words line.now) }
{
    match split_word(line) {
        None => true,
        Some((word, _)) => matches!(word.first(), Some(b'#')),
    }
}

/// The line of a configuration sets the flag `daemon`.
#[tactic(auto, unfolding(crate::specs::TextLines::is_daemon))]
pub fn is_daemon(alloc: Global, line: &[u8]) -> Result<bool, NoMemory>
    ensures { IfOk result (λ daemon. daemon ≡ is_daemon line.now) }
{
    let Ok(text) = str::from_utf8(line) else {
        return Ok(false);
    };
    match ServerConf::parse(alloc, text) {
        Ok(conf) => Ok(conf.daemon),
        Err(ReadError::NoMemory) => Err(NoMemory),
        Err(_) => Ok(false),
    }
}
