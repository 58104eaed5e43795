use svc_base::{Items, Numbers, Text, Texts};
use svc_graph::{EndpointList, Kind};

/// What a server knows of one of its services.
#[derive(Debug, Drop)]
pub struct ServicePlan {
    pub name: Text,
    pub kind: Kind,
    /// The services that have to be ready before this one starts.
    pub depends: Numbers,
    /// The addresses that it declares; none where it doesn't say.
    pub declared: Option<Texts>,
    pub endpoints: EndpointList,
}

/// Services, numbered from 0.
pub type ServiceList = Items<ServicePlan>;

/// What a server is run by.
#[derive(Debug, Drop)]
pub struct Plan {
    pub services: ServiceList,
    /// The grace period, in seconds.
    pub grace: u64,
    /// How long the services' workers are waited for at the end, in seconds.
    pub stop: u64,
    /// How many accept loops an endpoint has.
    pub tasks: u64,
    /// How often a handover is tried again.
    pub limit: u64,
    /// The server takes over the sockets of an older one.
    pub upgrade: bool,
    /// The server only tests that it can start.
    pub test: bool,
    /// Bootstrapping comes first.
    pub eager: bool,
    /// The server becomes a daemon.
    pub daemon: bool,
    /// The parent waits until the daemon is ready.
    pub wait: bool,
    /// How long the parent waits, in seconds.
    pub ready_timeout: u64,
}
