//! A server to begin from: two services, a host in memory, and the run, whose record is printed.
#![tactic(auto)]

mod hello;
mod host;
mod hosted;
mod services;
mod world;

use crate::hello::run;
use crate::host::HelloHost;
use std::env;
use std::mem::drop;

/// How many visitors come: the first word, or 2 where there is none.
fn visitors(rt: &HostRuntime) -> anyhow::Result<u64> {
    match env::args(rt)?.nth(1) {
        Some(word) => Ok(word.as_str().parse()?),
        None => Ok(2),
    }
}

/// Prints the record of a run, and how many visitors were greeted.
fn print_run(rt: &HostRuntime, host: &HelloHost) -> anyhow::Result<()> {
    for entry in host.entries.as_slice() {
        println!(rt; "{entry}")?;
    }
    println!(rt; "greeted {} visitors", host.world.greeted)?;
    Ok(())
}

fn main(rt: HostRuntime) -> anyhow::Result<()> {
    let host = run(rt.alloc(), visitors(&rt)?)?;
    let printed = print_run(&rt, &host);
    drop(host);
    printed
}
