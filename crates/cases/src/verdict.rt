//! What a case is to give.
use case_tables::{Mistake, number, pair, put_line};
use std::alloc::Global;

/// The output that is wanted.
#[derive(Drop)]
pub enum Output {
    /// Nothing was said: there is none.
    Unsaid,
    /// All of it.
    Whole(Vec<u8>),
    /// Its first bytes.
    Prefix(Vec<u8>),
    /// The bytes of the first word's file.
    Same,
}

/// The status and the two streams that a case is to give.
#[derive(Drop)]
pub struct Verdict {
    pub status: u8,
    pub out: Output,
    pub err: Option<Vec<u8>>,
}

impl Verdict {
    /// Nothing is said yet.
    pub fn unsaid() -> Verdict {
        Verdict {
            status: 0,
            out: Output::Unsaid,
            err: None,
        }
    }

    /// Whether something is said.
    pub fn is_said(&self) -> bool {
        self.err.is_some() || !matches!(self.out, Output::Unsaid)
    }

    /// The messages that are wanted.
    pub fn message(&self) -> &[u8] {
        match &self.err {
            Some(bytes) => bytes.as_slice(),
            None => b"",
        }
    }

    /// Says the output.
    pub fn say_out(&mut self, out: Output) -> Result<(), Mistake> {
        if !matches!(self.out, Output::Unsaid) {
            return Err(Mistake::SecondVerdict);
        }
        self.out = out;
        Ok(())
    }

    /// Says the status and what comes on the stream of messages.
    pub fn say_err(&mut self, status: u8, err: Vec<u8>) -> Result<(), Mistake> {
        if self.err.is_some() {
            return Err(Mistake::SecondVerdict);
        }
        self.status = status;
        self.err = Some(err);
        Ok(())
    }

    /// The verdict of a row: `lawful`, `honest yes`, `honest no`, `same`, or a message with status 1.
    pub fn of_words(alloc: Global, words: &str) -> Result<Verdict, Mistake> {
        let mut verdict = Verdict::unsaid();
        match words {
            "lawful" => verdict.say_lawful(alloc, "")?,
            "honest yes" => verdict.say_lawful(alloc, "yes")?,
            "honest no" => verdict.say_lawful(alloc, "no")?,
            "same" => verdict.say_out(Output::Same)?,
            message => verdict.say_message(alloc, 1, message)?,
        }
        Ok(verdict)
    }

    /// `STATUS MESSAGE`: this status, and the line `rdbg: MESSAGE` on the stream of messages.
    pub fn say_stop(&mut self, alloc: Global, words: &str) -> Result<(), Mistake> {
        let (status, message) = pair(words.split_once(' '))?;
        self.say_message(alloc, number::<u8>(status)?, message)
    }

    /// Says the status, and the line `rdbg: MESSAGE` on the stream of messages.
    fn say_message(&mut self, alloc: Global, status: u8, message: &str) -> Result<(), Mistake> {
        let mut err = Vec::from_slice(alloc, b"rdbg: ")?;
        put_line(&mut err, message)?;
        self.say_err(status, err)
    }

    /// What `check` prints of a lawful layout: honest `yes`, honest `no`, or one of them.
    pub fn say_lawful(&mut self, alloc: Global, honest: &str) -> Result<(), Mistake> {
        let mut out = Vec::from_slice(alloc, b"lawful\nhonest ")?;
        match honest {
            "" => return self.say_out(Output::Prefix(out)),
            "yes" | "no" => put_line(&mut out, honest)?,
            _ => return Err(Mistake::NotOfTheForm),
        }
        self.say_out(Output::Whole(out))
    }
}
