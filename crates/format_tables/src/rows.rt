//! Tables of public calls: a row `INPUT | WANTED` for each case.
use crate::{
    bundles, cv_calls, dwarf_calls, entries, expr_calls, lists, symbol_records, type_records, units,
};
use case_words::difference::tell_difference;
use case_words::lines::pair;
use case_words::mistake::Mistake;
use case_words::named::Named;
use case_words::words::set_file;
use entry_tables::outcome;
use std::alloc::Global;

/// What the rows of a table are about. BYTES and other words for bytes are hexadecimal digits, `-` for none, or the name of a file that
/// is set.
#[derive(Clone, Copy, PartialEq, Eq)]
pub enum Kind {
    /// Bundle files: `BYTES | dwarf` or `codeview` and the lengths of the sections, or the error; what was read is written again.
    Bundles,
    /// Units: `ABBREVIATIONS INFO | UNIT; UNIT ..`, with their entries, or the error.
    Units,
    /// Entries and what is around them: `ABBREVIATIONS INFO TEXTS OFFSETS | file NAME` of a line for each, or the error.
    Entries,
    /// What entries are as types, where their links lead, and the rules that they break: `ABBREVIATIONS INFO`, likewise.
    EntryTypes,
    /// Type records of CodeView: `BYTES | RECORD; RECORD ..`, or the error.
    TypeRecords,
    /// Symbol records of CodeView, likewise.
    SymbolRecords,
    /// Small calls on entries of DWARF: `CALL WORD .. | ANSWER`.
    EntryCalls,
    /// Small calls on CodeView's types, likewise.
    TypeCalls,
    /// Small calls on expressions in bytes, likewise.
    OperationCalls,
    /// Location lists and range lists, likewise.
    Lists,
}

/// The names of the kinds.
const KINDS: [(&str, Kind); 10] = [
    ("bundles", Kind::Bundles),
    ("units", Kind::Units),
    ("entries", Kind::Entries),
    ("entry-types", Kind::EntryTypes),
    ("type-records", Kind::TypeRecords),
    ("symbol-records", Kind::SymbolRecords),
    ("entry-calls", Kind::EntryCalls),
    ("type-calls", Kind::TypeCalls),
    ("operation-calls", Kind::OperationCalls),
    ("lists", Kind::Lists),
];

impl Kind {
    /// The kind of this name.
    pub fn of_word(word: &str) -> Result<Kind, Mistake> {
        for (name, kind) in KINDS {
            if name == word {
                return Ok(kind);
            }
        }
        Err(Mistake::NotOfTheForm)
    }
}

/// What is wrong with a row `INPUT | WANTED`; nothing where what comes of the input is what is wanted. `file NAME` wants
/// the lines of a file.
pub fn complaint(alloc: Global, kind: Kind, files: &[Named], row: &str) -> Result<String, Mistake> {
    let (input, wanted) = pair(row.split_once(" | "))?;
    let came = answer(alloc, kind, files, input)?;
    let mut told = String::new(alloc);
    let wanted_bytes = match wanted.strip_prefix("file ") {
        Some(name) => set_file(files, name)?,
        None => wanted.as_bytes(),
    };
    tell_difference(&mut told, "answer", wanted_bytes, came.as_bytes())?;
    Ok(told)
}

/// What comes of an input.
fn answer(alloc: Global, kind: Kind, files: &[Named], input: &str) -> Result<String, Mistake> {
    match kind {
        Kind::Bundles => bundles::outcome(alloc, files, input),
        Kind::Units => units::outcome(alloc, files, input),
        Kind::Entries => entries::outcome(alloc, files, input),
        Kind::EntryTypes => outcome(alloc, files, input),
        Kind::TypeRecords => type_records::outcome(alloc, files, input),
        Kind::SymbolRecords => symbol_records::outcome(alloc, files, input),
        Kind::EntryCalls => dwarf_calls::answer(alloc, input),
        Kind::TypeCalls => cv_calls::answer(alloc, input),
        Kind::OperationCalls => expr_calls::answer(alloc, input),
        Kind::Lists => lists::answer(alloc, files, input),
    }
}
