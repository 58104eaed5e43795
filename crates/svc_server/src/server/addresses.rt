//! The addresses that a server's services declare.

ghost use Rattle.std.specs.Prelude.{◌≡◌, IfOk, OnOk, fold};
ghost use Rattle.std.specs.Option.{option_map};
ghost use Rattle.svc_server.specs.Servers.{answers_of};
ghost use Rattle.svc_server.specs.Addresses.{expected_of, with_missing};

use std::alloc::Global;
use svc_base::{NoMemory, Text};
use svc_graph::services::ServiceWithDependents;

/// Appends the text, where it isn't among them.
fn add_missing(texts: &mut Vec<Text>, text: Text) -> Result<(), NoMemory>
    ensures { OnOk result (texts.new.items ≡ with_missing texts.old.items text) }
{
    if !texts.contains(&text) {
        texts.push(text)?;
    }
    Ok(())
}

/// Appends each text that isn't among them.
fn add_all_missing(texts: &mut Vec<Text>, more: Vec<Text>) -> Result<(), NoMemory>
    ensures { OnOk result (texts.new.items ≡ fold with_missing texts.old.items more.items) }
{
    for text in more {
        add_missing(texts, text)?;
    }
    Ok(())
}

/// All addresses that the services declare, each once; none where one of them says nothing.
pub(super) fn expected_addresses<B: ServiceWithDependents>(
    alloc: Global,
    services: &[B],
) -> Result<Option<Vec<Text>>, NoMemory>
    ensures { IfOk result (λ found. option_map (λ texts. texts.items) found
        ≡ expected_of (answers_of B.ServiceWithDependents services.now)) }
{
    let mut expected = Vec::new(alloc);
    for service in services {
        match service.listen_addresses(alloc)? {
            Some(declared) => add_all_missing(&mut expected, declared)?,
            None => return Ok(None),
        }
    }
    Ok(Some(expected))
}
