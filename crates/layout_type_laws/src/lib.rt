//! Laws 1 to 9 and 11: what types refer to, how they are laid out, and the numbers that choose variants.
#![tactic(auto)]

pub mod law_1;
pub mod law_11;
pub mod law_2;
pub mod law_3;
pub mod law_4;
pub mod law_5;
pub mod law_6;
pub mod law_7;
pub mod law_8;
pub mod law_9;
mod references;
