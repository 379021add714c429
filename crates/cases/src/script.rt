//! Files of cases, line by line.
mod ending;

use crate::report::Report;
use crate::setting::Setting;
use crate::verdict::{Output, Verdict};
use case_tables::{
    Kind, Mistake, complaint, cut_line_end, number, put_hex, put_line, put_numbered, put_repeating,
};
use std::alloc::{AllocError, Global};

/// What the lines after a directive are.
#[derive(Drop)]
enum Block {
    /// Nothing may follow.
    Closed,
    /// The first lines of each file of this name.
    Head(String),
    /// The lines of a file.
    File(String),
    /// The lines of the output.
    Out,
    /// The lines of messages, and the status.
    Err(u8),
    /// Rows of a public call.
    Table(Kind),
    /// Rows of a public call on bytes.
    Bytes(format_tables::Kind),
    /// Rows of lines of this file.
    Rows(String),
}

/// How far a file of cases has been followed.
#[derive(Drop)]
struct Script {
    alloc: Global,
    report: Report,
    /// The number of the line that is followed.
    line: u32,
    setting: Setting,
    verdict: Verdict,
    /// The line of the verdict, and the name of the case.
    verdict_line: u32,
    name: String,
    /// The directives that have set something that no case has run over.
    unused: Vec<String>,
    block: Block,
    /// The lines of the block so far.
    text: Vec<u8>,
}

/// Runs the cases of a file.
pub fn run_file(alloc: Global, file: &str, text: &str) -> Result<Report, AllocError> {
    let mut script = Script::new(alloc, Report::new(alloc, file)?);
    for line in text.split_terminator('\n') {
        script.line = script.line.saturating_add(1);
        let outcome = script.follow(line);
        script.settle(outcome, line)?;
    }
    let outcome = script.finish();
    script.settle(outcome, "")?;
    Ok(script.report)
}

impl Script {
    /// The start of a file.
    fn new(alloc: Global, report: Report) -> Script {
        Script {
            alloc,
            report,
            line: 0,
            setting: Setting::new(alloc),
            verdict: Verdict::unsaid(),
            verdict_line: 0,
            name: String::new(alloc),
            unused: Vec::new(alloc),
            block: Block::Closed,
            text: Vec::new(alloc),
        }
    }

    /// Tells a mistake as a wrong case; only where memory has run out the file ends.
    fn settle(&mut self, outcome: Result<(), Mistake>, line: &str) -> Result<(), AllocError> {
        match outcome {
            Ok(()) => Ok(()),
            Err(Mistake::Memory) => Err(AllocError),
            Err(mistake) => self.report.tell(self.line, line, mistake.message()),
        }
    }

    /// Does what the line says.
    fn follow(&mut self, line: &str) -> Result<(), Mistake> {
        if line.is_empty() || line.starts_with('#') {
            return Ok(());
        }
        if !line.starts_with('@') {
            // A line that would be read as something else has a `\` in front.
            return self.add_line(line.strip_prefix('\\').unwrap_or(line));
        }
        match line.split_once(' ') {
            Some((word, rest)) => self.direct(word, rest),
            None => self.direct(line, ""),
        }
    }

    /// Does what the directive says.
    fn direct(&mut self, word: &str, rest: &str) -> Result<(), Mistake> {
        match word {
            "@line" => self.add_repeating(rest),
            "@lines" | "@hex" | "@cut" => self.extend(word, rest),
            "@out" | "@err" | "@stop" | "@lawful" | "@same" => self.say(word, rest),
            _ => {
                self.end_case()?;
                self.set(word, rest)
            }
        }
    }

    /// Adds a line to the block, or runs it as a row.
    fn add_line(&mut self, line: &str) -> Result<(), Mistake> {
        let told = match &self.block {
            Block::Closed => return Err(Mistake::OutsideABlock),
            Block::Table(kind) => {
                let files = self.setting.files.as_slice();
                complaint(self.alloc, *kind, files, line)?
            }
            Block::Bytes(kind) => {
                let files = self.setting.files.as_slice();
                format_tables::complaint(self.alloc, *kind, files, line)?
            }
            Block::Rows(_) => self.row_complaint(line)?,
            _ => return Ok(put_line(&mut self.text, line)?),
        };
        Ok(self.report.tell(self.line, line, told.as_str())?)
    }

    /// Adds a line in which texts are repeated.
    fn add_repeating(&mut self, line: &str) -> Result<(), Mistake> {
        let mut text = Vec::new(self.alloc);
        put_repeating(&mut text, line)?;
        match str::from_utf8(text.as_slice()) {
            Ok(line) => self.add_line(line),
            Err(_) => Err(Mistake::NotOfTheForm),
        }
    }

    /// Adds to the text of the block, or takes its last LF away.
    fn extend(&mut self, word: &str, rest: &str) -> Result<(), Mistake> {
        if matches!(
            self.block,
            Block::Closed | Block::Table(_) | Block::Bytes(_) | Block::Rows(_)
        ) {
            return Err(Mistake::OutsideABlock);
        }
        match word {
            "@lines" => put_numbered(self.alloc, &mut self.text, rest),
            "@hex" => put_hex(self.alloc, &mut self.text, rest),
            _ => cut_line_end(&mut self.text),
        }
    }

    /// Says something of the verdict.
    fn say(&mut self, word: &str, rest: &str) -> Result<(), Mistake> {
        self.close()?;
        self.verdict_line = self.line;
        match word {
            "@out" => {
                self.block = Block::Out;
                Ok(())
            }
            "@err" => {
                self.block = Block::Err(number::<u8>(rest)?);
                Ok(())
            }
            "@stop" => self.verdict.say_stop(self.alloc, rest),
            "@lawful" => self.verdict.say_lawful(self.alloc, rest),
            _ => self.verdict.say_out(Output::Same),
        }
    }

    /// Sets something of the next case, or starts a table.
    fn set(&mut self, word: &str, rest: &str) -> Result<(), Mistake> {
        match word {
            "@head" => {
                self.block = Block::Head(String::from_str(self.alloc, rest)?);
                Ok(())
            }
            "@file" => self.start_file(rest),
            "@words" => {
                self.note(word, "")?;
                self.setting.set_words(rest)
            }
            "@call" => {
                self.note("@words", "")?;
                self.setting.set_call(rest)
            }
            "@hexword" => self.setting.add_hex_word(rest),
            "@fault" => {
                self.note(word, rest)?;
                self.setting.add_fault(rest)
            }
            "@case" => {
                self.note(word, "")?;
                self.name = String::from_str(self.alloc, rest)?;
                Ok(())
            }
            "@table" => {
                let kind = Kind::of_word(rest)?;
                if kind.reads_files() {
                    self.unused = Vec::new(self.alloc);
                } else {
                    self.finish()?;
                }
                self.block = Block::Table(kind);
                Ok(())
            }
            "@bytes" => {
                self.unused = Vec::new(self.alloc);
                self.block = Block::Bytes(format_tables::Kind::of_word(rest)?);
                Ok(())
            }
            "@rows" => {
                self.unused = Vec::new(self.alloc);
                self.block = Block::Rows(String::from_str(self.alloc, rest)?);
                Ok(())
            }
            _ => Err(Mistake::NotOfTheForm),
        }
    }

    /// Starts the lines of a file.
    fn start_file(&mut self, name: &str) -> Result<(), Mistake> {
        self.note("@file", name)?;
        self.text = self.setting.head_of(name)?;
        self.block = Block::File(String::from_str(self.alloc, name)?);
        Ok(())
    }
}
