//! The commands of the calculator: words and a source of bytes in, one text and a status out.
//!
//! A command answers the bytes of its input, and `demo` a number; a run tells one text and ends with one status. A run
//! has two halves: `work` reads the words and the source, and takes all memory that the run needs; `tell` writes what is
//! to be told.
//! Each command has a file of its own, with its answer, the text of the answer and its status.
#![tactic(auto)]

mod answer;
mod check;
mod demo;
mod message;
mod report;
mod solve;
mod status;
mod told;
mod top;
mod uvalue;
mod words;

pub use answer::Answer;
pub use check::CheckAnswer;
pub use demo::DemoAnswer;
pub use report::ReportAnswer;
pub use solve::SolveAnswer;
pub use status::Status;
pub use told::Told;
pub use top::run;
pub use uvalue::UValueAnswer;
pub use words::Command;
