//! Where the indices of CodeView's type records lead.
#![tactic(auto)]

mod completes;
mod ends;
mod heads;
mod links;
mod members;
mod numbers;
mod pointers;
mod records;
mod target;

pub use heads::{Head, Leaf};
pub use links::{Links, read_links};
pub use members::{Members, Placed};
pub use numbers::is_numbered;
pub use target::Target;
