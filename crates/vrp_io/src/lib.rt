//! Sources of bytes and sinks for bytes, which count their calls and their faults.
//!
//! A fault of reading or writing is answered only where such a count rose.
#![tactic(auto)]

mod fault;
mod gate;
mod mem_sink;
mod mem_source;
mod numbers;
mod reading;
mod sink;
mod source;
mod std_sink;
mod std_source;
mod writing;

pub use fault::{Failed, ReadFault, WriteFault};
pub use gate::{Gate, NoGate};
pub use mem_sink::MemSink;
pub use mem_source::MemSource;
pub use reading::read_all;
pub use sink::Sink;
pub use source::Source;
pub use std_sink::StdSink;
pub use std_source::StdSource;
pub use writing::write_all;
