//! Tests of svc_base, svc_conf, svc_graph, svc_fds, svc_proc, svc_socket, svc_streams, svc_listen and svc_gate:
//! that their calls succeed, and the texts of their errors.
#![tactic(auto)]

#[cfg(test)]
mod accepting;
#[cfg(test)]
mod checking;
#[cfg(test)]
mod configuration;
#[cfg(test)]
mod connections;
#[cfg(test)]
mod descriptors;
#[cfg(test)]
mod dialing;
#[cfg(test)]
mod endpoints;
#[cfg(test)]
mod gate;
#[cfg(test)]
mod graph;
#[cfg(test)]
mod listening;
#[cfg(test)]
mod messages;
#[cfg(test)]
mod options;
#[cfg(test)]
mod peers;
#[cfg(test)]
mod processes;
#[cfg(test)]
mod services;
#[cfg(test)]
mod texts;
#[cfg(test)]
mod tls;
#[cfg(test)]
mod values;
