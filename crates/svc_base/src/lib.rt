//! What every crate stands on: want of memory, texts, lists, entries in ascending key, sets of numbers, lines and words
//! of texts, settings, the options of runtimes, told calls, and sources and sinks of bytes that count their faults.
#![tactic(auto)]

mod block_edits;
mod block_memory;
mod block_places;
mod blocks;
mod calls;
mod decimals;
mod equality;
mod files;
mod items;
mod keyed;
mod memory;
mod number_ranges;
mod number_set;
mod runtime;
mod settings;
mod sink;
mod source;
mod status;
mod text;
mod words;

pub use blocks::Blocks;
pub use calls::Calls;
pub use decimals::{number, number8, number16, number32};
pub use files::{FileCall, FileError, Files, MemoryFile, MemoryFiles, SteadyFiles, SystemFiles};
pub use items::{Bytes, ItemRefused, Items, Numbers, Reserved, Settings, Texts, copy_items};
pub use keyed::Keyed;
pub use memory::NoMemory;
pub use number_ranges::NumberRanges;
pub use number_set::NumberSet;
pub use runtime::{RuntimeMetricsOpts, RuntimeMetricsPollTimeHistogramScale, RuntimeOpts};
pub use settings::{Setting, TcpKeepalive};
pub use sink::{MemorySink, Put, Sink, SteadySink, WriteFault, Writing, write_all};
pub use source::{
    MemorySource, READ_LIMIT, ReadAllError, Reading, Source, SteadySource, Taken, read_all,
    read_to_end,
};
pub use status::Status;
pub use text::Text;
pub use words::{is_blank, split_line, split_word};
