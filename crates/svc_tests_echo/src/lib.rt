//! Tests of workers over desks, of what a server's sockets are made of, and of the echo server over desks in
//! memory. Whole servers over loopback are played by `tests/echo`.
#![tactic(auto)]

#[cfg(test)]
mod adapters;
#[cfg(test)]
mod checking;
#[cfg(test)]
mod clients;
#[cfg(test)]
mod echoes;
#[cfg(test)]
mod plans;
#[cfg(test)]
mod real_desks;
#[cfg(test)]
mod tables;
#[cfg(test)]
mod two_desks;
#[cfg(test)]
mod workers;
