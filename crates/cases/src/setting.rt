//! What a case runs over: the words, the files, and the calls that fail.
use case_tables::{Mistake, Named, bytes_of_hex, number, pair};
use rv_io::{Fail, List};
use std::alloc::{AllocError, Global};
use std::mem;

/// The calls that fail in one case, counted from 0.
#[derive(Drop)]
pub struct Faults {
    /// Fetches of files.
    pub reads: List<u32>,
    /// Puts to the output.
    pub outs: List<Fail>,
    /// Puts to the stream of messages.
    pub errs: List<Fail>,
}

impl Faults {
    /// No call fails.
    pub fn none(alloc: Global) -> Faults {
        Faults {
            reads: List::new(alloc),
            outs: List::new(alloc),
            errs: List::new(alloc),
        }
    }

    /// Adds `read CALL`, `out CALL TAKEN` or `err CALL TAKEN`.
    fn add(&mut self, fault: &str) -> Result<(), Mistake> {
        let (what, call) = pair(fault.split_once(' '))?;
        match what {
            "read" => Ok(self.reads.push(number::<u32>(call)?)?),
            "out" => Ok(self.outs.push(failing_put(call)?)?),
            "err" => Ok(self.errs.push(failing_put(call)?)?),
            _ => Err(Mistake::NotOfTheForm),
        }
    }
}

/// The put of `CALL TAKEN`.
fn failing_put(words: &str) -> Result<Fail, Mistake> {
    let (call, taken) = pair(words.split_once(' '))?;
    Ok(Fail {
        call: number::<u32>(call)?,
        taken: number::<u32>(taken)?,
    })
}

/// What is called in a case.
#[derive(Clone, Copy)]
pub enum Call {
    /// The program, over the words.
    Run,
    /// The layout file that the first word names is read and written.
    Write,
    /// The lines that are printed of a sound layout, which need not be lawful, after `> `.
    Lines,
    /// Which two locations may not be next to one another.
    Abutting,
}

/// What the lines so far have set.
#[derive(Drop)]
pub struct Setting {
    alloc: Global,
    /// The lines before the lines of each later file of this name.
    heads: Vec<Named>,
    pub files: Vec<Named>,
    pub call: Call,
    pub words: Vec<Vec<u8>>,
    pub faults: Faults,
}

impl Setting {
    /// Nothing is set.
    pub fn new(alloc: Global) -> Setting {
        Setting {
            alloc,
            heads: Vec::new(alloc),
            files: Vec::new(alloc),
            call: Call::Run,
            words: Vec::new(alloc),
            faults: Faults::none(alloc),
        }
    }

    /// Sets what is called, and over which files: `write LAYOUT`, `lines LAYOUT SNAPSHOT` or
    /// `abutting LAYOUT PLACES`.
    pub fn set_call(&mut self, line: &str) -> Result<(), Mistake> {
        let (call, files) = pair(line.split_once(' '))?;
        self.set_words(files)?;
        self.call = match call {
            "write" => Call::Write,
            "lines" => Call::Lines,
            "abutting" => Call::Abutting,
            _ => return Err(Mistake::NotOfTheForm),
        };
        Ok(())
    }

    /// Sets the words of the program, which are apart by single spaces.
    pub fn set_words(&mut self, line: &str) -> Result<(), Mistake> {
        let mut words = Vec::new(self.alloc);
        if !line.is_empty() {
            for word in line.split(' ') {
                words.push(Vec::from_slice(self.alloc, word.as_bytes())?)?;
            }
        }
        self.words = words;
        self.call = Call::Run;
        Ok(())
    }

    /// Adds a word that is written in hexadecimal digits.
    pub fn add_hex_word(&mut self, digits: &str) -> Result<(), Mistake> {
        let word = bytes_of_hex(self.alloc, digits)?;
        Ok(self.words.push(word)?)
    }

    /// Adds a call that fails in the next case.
    pub fn add_fault(&mut self, fault: &str) -> Result<(), Mistake> {
        self.faults.add(fault)
    }

    /// The calls that fail; from now on none does.
    pub fn take_faults(&mut self) -> Faults {
        mem::replace(&mut self.faults, Faults::none(self.alloc))
    }

    /// The lines before the lines of a file of this name.
    pub fn head_of(&self, name: &str) -> Result<Vec<u8>, AllocError> {
        for head in self.heads.iter() {
            if head.name.as_str() == name {
                return Vec::from_slice(self.alloc, head.bytes.as_slice());
            }
        }
        Ok(Vec::new(self.alloc))
    }

    /// The bytes of the file of this name; none where there is no such file.
    pub fn file(&self, name: &str) -> &[u8] {
        for file in self.files.iter() {
            if file.name.as_str() == name {
                return file.bytes.as_slice();
            }
        }
        b""
    }

    /// The bytes of the file that this word names.
    pub fn file_at(&self, word: usize) -> &[u8] {
        let Some(name) = self.words.get(word) else {
            return b"";
        };
        match str::from_utf8(name.as_slice()) {
            Ok(name) => self.file(name),
            Err(_) => b"",
        }
    }

    /// Sets the lines before the lines of each later file of this name.
    pub fn set_head(&mut self, name: String, bytes: Vec<u8>) -> Result<(), AllocError> {
        put_named(&mut self.heads, name, bytes)
    }

    /// Sets the bytes of the file.
    pub fn set_file(&mut self, name: String, bytes: Vec<u8>) -> Result<(), AllocError> {
        put_named(&mut self.files, name, bytes)
    }
}

/// Adds the bytes under this name, in the place of those that it had.
fn put_named(entries: &mut Vec<Named>, name: String, bytes: Vec<u8>) -> Result<(), AllocError> {
    entries.retain(|entry| entry.name.as_str() != name.as_str());
    entries.push(Named { name, bytes })?;
    Ok(())
}
