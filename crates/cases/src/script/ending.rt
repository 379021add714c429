//! How blocks and cases end.
use super::{Block, Script};
use crate::running;
use crate::verdict::{Output, Verdict};
use case_tables::{Mistake, pair, put_line};
use std::alloc::AllocError;
use std::mem;

impl Script {
    /// Runs over the lines of a row `LINES | VERDICT` in the place of the block's file: how that ends otherwise.
    pub(super) fn row_complaint(&mut self, row: &str) -> Result<String, Mistake> {
        let (lines, wanted) = pair(row.split_once(" | "))?;
        let Block::Rows(file) = &self.block else {
            return Err(Mistake::OutsideABlock);
        };
        let name = String::from_str(self.alloc, file.as_str())?;
        let mut text = self.setting.head_of(name.as_str())?;
        for line in lines.split(" / ") {
            put_line(&mut text, line)?;
        }
        self.setting.set_file(name, text)?;
        let verdict = Verdict::of_words(self.alloc, wanted)?;
        let faults = self.setting.take_faults();
        running::complaint(self.alloc, &self.setting, faults, &verdict)
    }

    /// Notes that this is set; where it was set before and no case has run since, that is told.
    pub(super) fn note(&mut self, word: &str, name: &str) -> Result<(), AllocError> {
        let directive = format!(in self.alloc; "{word} {name}")?;
        let is_again = self
            .unused
            .iter()
            .any(|set| set.as_str() == directive.as_str());
        if is_again {
            self.report.tell(self.line, directive.as_str(), Mistake::NoVerdict.message())?;
        }
        self.unused.push(directive)?;
        Ok(())
    }

    /// Ends the block, and keeps its lines.
    pub(super) fn close(&mut self) -> Result<(), Mistake> {
        let text = mem::replace(&mut self.text, Vec::new(self.alloc));
        match mem::replace(&mut self.block, Block::Closed) {
            Block::Closed | Block::Table(_) | Block::Bytes(_) | Block::Rows(_) => Ok(()),
            Block::Head(name) => Ok(self.setting.set_head(name, text)?),
            Block::File(name) => Ok(self.setting.set_file(name, text)?),
            Block::Out => self.verdict.say_out(Output::Whole(text)),
            Block::Err(status) => self.verdict.say_err(status, text),
        }
    }

    /// Ends the block, and runs the case if it has a verdict.
    pub(super) fn end_case(&mut self) -> Result<(), Mistake> {
        self.close()?;
        if !self.verdict.is_said() {
            return Ok(());
        }
        let verdict = mem::replace(&mut self.verdict, Verdict::unsaid());
        let faults = self.setting.take_faults();
        let told = running::complaint(self.alloc, &self.setting, faults, &verdict)?;
        self.report
            .tell(self.verdict_line, self.name.as_str(), told.as_str())?;
        self.name = String::new(self.alloc);
        self.unused = Vec::new(self.alloc);
        Ok(())
    }

    /// Ends the case; that something is set and no case has run over it is a mistake.
    pub(super) fn finish(&mut self) -> Result<(), Mistake> {
        self.end_case()?;
        if self.unused.is_empty() {
            return Ok(());
        }
        self.unused = Vec::new(self.alloc);
        Err(Mistake::NoVerdict)
    }
}
