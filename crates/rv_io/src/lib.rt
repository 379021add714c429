//! Lists, texts and buffers that contracts see as lists, and the inputs and sinks of a program.
#![tactic(auto)]

mod boxed;
mod buf;
mod inputs;
mod list;
mod mem_inputs;
mod mem_sink;
mod memory;
mod numbers;
mod real;
mod sink;
mod text;

pub use boxed::Boxed;
pub use buf::Buf;
pub use inputs::{FetchErr, Inputs};
pub use list::List;
pub use mem_inputs::{File, MemInputs};
pub use mem_sink::{Fail, MemSink};
pub use memory::Memory;
pub use real::{RealInputs, RealSink};
pub use sink::{Failed, Sink};
pub use text::Text;
