//! The text of a chain.

ghost use Rattle.std.specs.Prelude.{◌≡◌, ◌++◌, IfOk, OnOk, string_bytes};
ghost use Rattle.svc_record.specs.Text.{text_of};
ghost use Rattle.svc_generations.specs.Serving.{number_line, chain_text};

use std::alloc::Global;
use std::fmt::Write;
use svc_base::NoMemory;
use svc_record::Entry;
use svc_supervisor::Chain;
use svc_text::record_text;

/// Appends the line of a generation's number.
fn add_number(text: &mut String, number: u32) -> Result<(), NoMemory>
    ensures { OnOk result (string_bytes text.new ≡ string_bytes text.old ++ number_line number) }
{
    writeln!(text, "generation {number}")?;
    Ok(())
}

/// Appends a generation's number and its record.
fn add_generation(
    alloc: Global,
    text: &mut String,
    number: u32,
    entries: &[Entry],
) -> Result<(), NoMemory>
    ensures { OnOk result (string_bytes text.new ≡ string_bytes text.old ++ (number_line number ++ text_of entries.now)) }
{
    add_number(text, number)?;
    let record = record_text(alloc, entries)?;
    text.push_str(record.as_str())?;
    Ok(())
}

/// The text of a chain: the number of each generation and its record, the oldest first.
pub(crate) fn chain_text(alloc: Global, chain: &Chain) -> Result<String, NoMemory>
    ensures { IfOk result (λ text. string_bytes text ≡ chain_text 0 chain.now.generations) }
{
    let mut text = String::new(alloc);
    for generation in 0..chain.generations() {
        add_generation(
            alloc,
            &mut text,
            generation,
            chain.entries(generation).as_slice(),
        )?;
    }
    Ok(text)
}
