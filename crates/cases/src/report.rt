//! What is told of the cases of a file.
use std::alloc::{AllocError, Global};

/// How many cases a file has, how many went wrong, and the lines that say how.
#[derive(Drop)]
pub struct Report {
    pub file: String,
    pub cases: u32,
    pub wrong: u32,
    pub text: String,
}

impl Report {
    /// The report of a file of which no case has run.
    pub fn new(alloc: Global, file: &str) -> Result<Report, AllocError> {
        Ok(Report {
            file: String::from_str(alloc, file)?,
            cases: 0,
            wrong: 0,
            text: String::new(alloc),
        })
    }

    /// Counts a case, and tells how it went wrong if it has a complaint.
    pub fn tell(&mut self, line: u32, name: &str, complaint: &str) -> Result<(), AllocError> {
        self.cases = self.cases.saturating_add(1);
        if complaint.is_empty() {
            return Ok(());
        }
        self.wrong = self.wrong.saturating_add(1);
        let file = self.file.as_str();
        write!(self.text, "WRONG {file}:{line} {name}\n{complaint}")
    }
}
