//! Files in memory.
ghost use Rattle.std.specs.Prelude.{◌≡◌, ◌≤◌, ◌↔◌, Some, IsTrue, IfErr, OnOk, OnErr, Contains};
ghost use Rattle.std.specs.Option.{option_copied};
ghost use Rattle.rv_io.specs.Files.{Fetches, FetchCause};
ghost use Rattle.rv_io.specs.MemInputs.{told, faults_of, Begins, MemAnswers, MemCounts, find_file};

use crate::buf::Buf;
use crate::inputs::{FetchErr, Inputs};
use crate::list::List;
use crate::text::Text;

/// A file in memory.
#[derive(Debug, Drop)]
pub struct File {
    pub name: Text,
    pub bytes: Text,
}

/// Files in memory, which are told; of two with one name the first counts.
#[derive(Debug, Drop)]
pub struct MemInputs {
    files: List<File>,
    failing: List<u32>,
    calls: u64,
    faults: u64,
}

impl MemInputs {
    /// The calls whose numbers, counted from 0, are in `failing` fail. Takes no memory.
    pub fn new(files: List<File>, failing: List<u32>) -> MemInputs
        ensures { Begins files failing result }
    {
        MemInputs {
            files,
            failing,
            calls: 0,
            faults: 0,
        }
    }
}

impl Inputs for MemInputs {
    ghost files = { λ s. Some (told s) };

    ghost faults = { λ s. faults_of s };

    fn fetch(&mut self, name: &str, most: usize, into: &mut Buf) -> Result<(), FetchErr>
        ensures bytes { OnOk result (Fetches (Some (told self.old)) name.now most into.old into.new) }
        ensures cause { IfErr result (λ e. FetchCause e (Some (told self.old)) name.now (faults_of self.old) (faults_of self.new)) }
        ensures same { OnErr result (into.new ≡ into.old) }
        ensures later { faults_of self.old ≤ faults_of self.new }
        ensures files { Some (told self.new) ≡ Some (told self.old) }

        // Beyond the trait: which answer comes, and what is counted.
        ensures answers { MemAnswers self.old name.now result }
        ensures counts { MemCounts self.old self.new result }
    {
        let call = self.calls;
        self.calls = self.calls.saturating_add(1);
        if is_listed(self.failing.as_slice(), call) {
            self.faults = self.faults.saturating_add(1);
            return Err(FetchErr::Failed);
        }
        let bytes = match find(self.files.as_slice(), name.as_bytes()) {
            Some(bytes) => bytes,
            None => return Err(FetchErr::NoFile),
        };
        let count = bytes.len().min(most);
        into.put(&bytes[..count])?;
        Ok(())
    }
}

/// Whether the number is in the list.
fn is_listed(numbers: &[u32], number: u64) -> bool
    ensures { IsTrue result ↔ Contains numbers.now number }
{
    for n in numbers {
        if u64::from(*n) == number {
            return true;
        }
    }
    false
}

/// The bytes of the first file of this name.
fn find<'a>(files: &'a [File], name: &[u8]) -> Option<&'a [u8]>
    ensures { option_copied result ≡ find_file name.now files.now }
{
    for file in files {
        if name == file.name.as_bytes() {
            return Some(file.bytes.as_bytes());
        }
    }
    None
}
