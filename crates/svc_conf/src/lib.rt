//! The configuration of a server: its keys, its text, and the words of a command line. It names what
//! `svc_base` has for all crates, too.
#![tactic(auto)]

pub mod server;

pub use server::configuration::{
    Key, Opt, OptError, ReadError, RuntimeMetricsOpts, RuntimeMetricsPollTimeHistogramScale,
    RuntimeOpts, ServerConf,
};
pub use svc_base::{
    Bytes, FileCall, FileError, Files, ItemRefused, Items, MemoryFile, MemoryFiles, MemorySink,
    MemorySource, NoMemory, Numbers, Put, READ_LIMIT, ReadAllError, Reading, Reserved, Setting,
    Settings, Sink, Source, Status, SteadyFiles, SteadySink, SteadySource, SystemFiles, Taken,
    TcpKeepalive, Text, Texts, WriteFault, Writing, read_all, write_all,
};
