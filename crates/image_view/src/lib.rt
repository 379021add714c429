//! Borrowed views of memory and of chunks, in which bytes may be missing.
#![tactic(auto)]

mod chunk;
mod covering;
mod image;
mod numbers;
mod whole;

pub use chunk::{Chunk, Src};
pub use image::Image;
