// A dealing: the judge and the writer.
#![tactic(auto)]

mod filling;
mod judge;
mod writer;

pub use judge::{judge_dealing, judge_dealing_in, judge_lines};
pub use writer::{write_dealing, write_dealing_in};
