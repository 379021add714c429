//! Tables of public calls: a row `INPUT | WANTED` for each case.
use crate::lines::pair;
use crate::mistake::Mistake;
use crate::named::Named;
use crate::words::set_file;
use crate::{copies, difference, dwarf, numbers, places, sets, spellings, values};
use std::alloc::Global;

/// What the rows of a table are about. SECTION, BYTES and other words for bytes are hexadecimal digits, `-` for none, or the name of a
/// file that is set.
#[derive(Clone, Copy, PartialEq, Eq)]
pub enum Kind {
    /// Names in both spellings, read and spelled both ways.
    Names,
    /// Texts read in Rust's spelling.
    RustNames,
    /// The same, written in hexadecimal digits.
    RustBytes,
    /// Texts read in CodeView's spelling.
    CodeViewNames,
    /// The same, written in hexadecimal digits.
    CodeViewBytes,
    /// Copies of names: `RUST | RUST | CODEVIEW`, both spellings of a copy.
    Copies,
    /// Words of names: `TEXT | a word`, or `at N`.
    Words,
    /// Words that are numbers with `0x`: `WORD | N`, or `none`.
    HexWords,
    /// The same of decimal numbers.
    DecimalWords,
    /// Numbers in bytes: `FORM:NUMBER .. | HEX`, written and read.
    Numbers,
    /// What is read at a place: `HEX CALL .. | ANSWER, ..`.
    Reads,
    /// Abbreviation tables: `PLACE SECTION | file LINES`, a line for each declaration, or the error.
    Abbreviations,
    /// A declaration of an abbreviation table: `CODE PLACE SECTION | LINE`, or `none`.
    Declarations,
    /// Abbreviation tables, read and written again: `SECTION | the same`.
    WrittenTables,
    /// Values of attributes: `FORM PLACE BYTES | VALUE`, or the error.
    Attributes,
    /// Texts by index: `BASE INDEX OFFSETS TEXTS | "TEXT"`, or the error.
    IndexedTexts,
    /// Expressions over the snapshot `s`: `OPERATION .. | address H`, `number H`, `nothing` or `no expression`.
    Expressions,
    /// The bytes of a variable in the snapshot `s`: `SIZE LINE / .. | DIGITS`, or `none`.
    Places,
    /// Values of types of the layout `l`: `TYPE DEPTH WIDTH BYTES ADDRESS:BYTES .. | NODES TEXT`.
    Values,
    /// Sizes of types of the layout `l`: `TYPE | N`.
    Sizes,
    /// Variants of type 0 of the layout `l`: `NUMBER | NAME`, or `none`.
    Variants,
    /// What CodeView carries of a layout: `LAYOUT | file LAYOUT`.
    Carried,
    /// What the laws say of two layouts together: `LAYOUT LAYOUT | no breach`, or the breach.
    Joined,
}

/// The names of the kinds.
const KINDS: [(&str, Kind); 23] = [
    ("names", Kind::Names),
    ("rust-names", Kind::RustNames),
    ("rust-bytes", Kind::RustBytes),
    ("codeview-names", Kind::CodeViewNames),
    ("codeview-bytes", Kind::CodeViewBytes),
    ("copies", Kind::Copies),
    ("words", Kind::Words),
    ("hex-words", Kind::HexWords),
    ("decimal-words", Kind::DecimalWords),
    ("numbers", Kind::Numbers),
    ("reads", Kind::Reads),
    ("abbreviations", Kind::Abbreviations),
    ("declarations", Kind::Declarations),
    ("written-tables", Kind::WrittenTables),
    ("attributes", Kind::Attributes),
    ("indexed-texts", Kind::IndexedTexts),
    ("expressions", Kind::Expressions),
    ("places", Kind::Places),
    ("values", Kind::Values),
    ("sizes", Kind::Sizes),
    ("variants", Kind::Variants),
    ("carried", Kind::Carried),
    ("joined", Kind::Joined),
];

impl Kind {
    /// The kind of this name.
    pub fn of_word(word: &str) -> Result<Kind, Mistake> {
        for (name, kind) in KINDS {
            if name == word {
                return Ok(kind);
            }
        }
        Err(Mistake::NotOfTheForm)
    }

    /// Whether the rows are about files that are set.
    pub fn reads_files(self) -> bool {
        match self {
            Kind::Abbreviations | Kind::Declarations | Kind::WrittenTables | Kind::IndexedTexts =>
                true,
            Kind::Expressions | Kind::Places | Kind::Values | Kind::Sizes | Kind::Variants => true,
            Kind::Carried | Kind::Joined => true,
            _ => false,
        }
    }
}

/// What is wrong with a row `INPUT | WANTED`; nothing where what comes of the input is what is wanted. `file NAME` wants
/// the lines of a file.
pub fn complaint(alloc: Global, kind: Kind, files: &[Named], row: &str) -> Result<String, Mistake> {
    let (input, wanted) = pair(row.split_once(" | "))?;
    let came = answer(alloc, kind, files, input)?;
    let mut told = String::new(alloc);
    let wanted_bytes = match wanted.strip_prefix("file ") {
        Some(name) => set_file(files, name)?,
        None => wanted.as_bytes(),
    };
    difference::tell_difference(&mut told, "answer", wanted_bytes, came.as_bytes())?;
    let back = match kind {
        Kind::Names => spellings::rust_of_codeview(alloc, wanted.as_bytes())?,
        Kind::Numbers => numbers::read_back(alloc, input, wanted)?,
        _ => return Ok(told),
    };
    told.push_str(difference::of_texts(alloc, input, back.as_str())?.as_str())?;
    Ok(told)
}

/// What comes of an input.
fn answer(alloc: Global, kind: Kind, files: &[Named], input: &str) -> Result<String, Mistake> {
    match kind {
        Kind::Names | Kind::RustNames => spellings::codeview_of_rust(alloc, input.as_bytes()),
        Kind::RustBytes => spellings::codeview_of_rust_hex(alloc, input),
        Kind::CodeViewNames => spellings::rust_of_codeview(alloc, input.as_bytes()),
        Kind::CodeViewBytes => spellings::rust_of_codeview_hex(alloc, input),
        Kind::Copies => copies::spellings(alloc, input),
        Kind::Words => copies::word(alloc, input),
        Kind::HexWords => copies::hexadecimal(alloc, input),
        Kind::DecimalWords => copies::decimal(alloc, input),
        Kind::Numbers => numbers::written(alloc, input),
        Kind::Reads => numbers::read(alloc, input),
        Kind::Abbreviations => dwarf::declarations(alloc, files, input),
        Kind::Declarations => dwarf::declaration_of(alloc, files, input),
        Kind::WrittenTables => dwarf::written_again(alloc, files, input),
        Kind::Attributes => dwarf::value(alloc, files, input),
        Kind::IndexedTexts => dwarf::text(alloc, files, input),
        Kind::Expressions => places::result(alloc, files, input),
        Kind::Places => places::bytes(alloc, files, input),
        Kind::Values => values::value(alloc, files, input),
        Kind::Sizes => values::size(alloc, files, input),
        Kind::Variants => values::variant(alloc, files, input),
        Kind::Carried => sets::carried(alloc, files, input),
        Kind::Joined => sets::joined(alloc, files, input),
    }
}
