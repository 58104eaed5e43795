//! Tests of the core and its parts, svc_handover, svc_text, svc_shared, svc_server and svc_main, of what the rows of
//! tests/rows can't show: a server that bootstraps by itself, handovers between two servers, calls that the program
//! doesn't make, sources and sinks that fail, and the texts of errors.
#![tactic(auto)]

#[cfg(test)]
mod bootstrapping;
#[cfg(test)]
mod checking;
#[cfg(test)]
mod cores;
#[cfg(test)]
mod handovers;
#[cfg(test)]
mod hosts;
#[cfg(test)]
mod programs;
#[cfg(test)]
mod runs;
#[cfg(test)]
mod scripts;
#[cfg(test)]
mod servers;
#[cfg(test)]
mod shared;
#[cfg(test)]
mod texts;
