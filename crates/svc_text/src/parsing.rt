//! What a script says.

ghost use Rattle.std.specs.Prelude.{◌≡◌, ◌+◌, ◌<◌, ◌^◌, length, All, IfOk};
ghost use Rattle.std.specs.Str.Lines.{lines};
ghost use Rattle.svc_text.specs.Script.{script, AreLines};
ghost use Rattle.svc_text.specs.Outcome.{Gives};
ghost use Rattle.svc_text.specs.Fronts.{finished};
ghost use Rattle.svc_text.specs.Accepted.{AreAccepted, BringsFew};

use crate::conf_text::read_conf;
use crate::front::{ParsedPrefix, parse_prefix};
use crate::script_items::ScriptItems;
use crate::service::ServiceLine;
use std::alloc::Global;
use std::mem::drop;
use svc_conf::ServerConf;
use thiserror::Error;

/// What a script says.
#[derive(Drop)]
pub struct Script {
    /// What the configuration says: the defaults, overridden by its keys.
    pub conf: ServerConf,
    /// The services, numbered from 0 in the order of their lines.
    pub services: Vec<ServiceLine>,
    /// Bootstrapping comes first.
    pub eager: bool,
    /// The events, and where the host fails.
    pub items: ScriptItems,
    /// The number of each service's line.
    pub lines: Vec<usize>,
}

/// Why a text is no script.
#[derive(Clone, Copy, Debug, PartialEq, Eq, Error)]
pub enum ScriptError {
    /// The line with this number, from 1, is the first that doesn't fit those before it. Where a part
    /// is missing, it is the line behind the last one.
    #[error("line {0} is refused")]
    Line(usize),
    /// There was no memory.
    #[error("out of memory")]
    NoMemory,
}

/// What a script says, of the lines that fit and the configuration.
fn finished(front: ParsedPrefix, conf: ServerConf) -> Result<Script, ScriptError>
    requires { front.number + 1 < 2 ^ 64 }
    ensures { result ≡ finished front conf }
{
    let next = front.number + 1;
    if front.refused || front.reading.part.number() != 3 {
        drop(front);
        drop(conf);
        return Err(ScriptError::Line(next));
    }
    let ParsedPrefix { reading, lines, .. } = front;
    Ok(Script {
        conf,
        services: reading.services,
        eager: reading.eager,
        items: reading.items,
        lines,
    })
}

/// What the bytes say as a script, or the first refused line.
pub fn parse(alloc: Global, bytes: &[u8]) -> Result<Script, ScriptError>
    ensures parts { Gives result (script bytes.now) }
    ensures accepted { IfOk result (λ s. AreAccepted s.services.items) }
    ensures few { IfOk result (λ s. All BringsFew s.items) }
    ensures numbers { IfOk result (λ s. AreLines (lines bytes.now) (length s.services.items) s.lines.items) }
{
    let Ok(front) = parse_prefix(alloc, bytes) else {
        return Err(ScriptError::NoMemory);
    };
    let text = &bytes[front.conf.start..front.conf.end];
    let conf = match read_conf(alloc, text, front.conf.before) {
        Ok(conf) => conf,
        Err(error) => {
            drop(front);
            return Err(error);
        }
    };
    finished(front, conf)
}
