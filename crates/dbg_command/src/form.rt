//! The forms of a command line's words.
ghost use Rattle.std.specs.Prelude.{◌≡◌, ◌≤◌, Some, None, IfSome, if◌then◌else◌};
ghost use Rattle.std.specs.Option.{option_map, option_copied};
ghost use Rattle.std.specs.Str.{is_utf8};
ghost use Rattle.dbg_command.specs.Forms.{form_of, file_form, printing_form, emit_form, short_form, long_form, number_from, named, IsShallow};

use readers::read_decimal;
use rv_io::Text;

/// How deep references and boxes are followed where no depth is asked for.
const DEPTH: u32 = 2;

/// How many elements of a sequence are shown where no width is asked for.
const WIDTH: u32 = 32;

/// What values are printed over, and how much of them.
#[derive(Clone, Copy)]
pub struct Printing<'a> {
    /// The name of the snapshot.
    pub snapshot: &'a str,
    /// How deep references and boxes are followed: 0 to 4.
    pub depth: u32,
    /// How many elements of each sequence are shown at most: 1 to 256.
    pub width: u32,
}

/// What is asked of a layout.
#[derive(Clone, Copy)]
pub enum LayoutCommand<'a> {
    /// `check L`: whether the layout is lawful and honest.
    Check,
    /// `text L S`: the statics of the layout and its running functions over the snapshot.
    Text(Printing<'a>),
    /// `emit dwarf L`: a bundle of DWARF sections that describe the layout.
    Emit,
}

/// What is asked of a bundle.
#[derive(Clone, Copy)]
pub enum BundleCommand<'a> {
    /// `show B`: the layout text of the set that the bundle describes.
    Show,
    /// `print B S`: the statics of that set and its running functions over the snapshot.
    Print(Printing<'a>),
}

/// What is asked for, with the name of the first file.
#[derive(Clone, Copy)]
pub enum Form<'a> {
    Layout(&'a str, LayoutCommand<'a>),
    Bundle(&'a str, BundleCommand<'a>),
}

/// The form of the words, if they have one.
pub fn form_of(words: &[Text]) -> Option<Form<'_>>
    ensures form { option_map (λ f. named f) result ≡ form_of words.now }
    ensures shallow { IfSome result (λ f. IsShallow (named f)) }
{
    match words {
        [command, name] => file_form(command.as_bytes(), name.as_bytes()),
        [command, first, second] => {
            short_form(command.as_bytes(), first.as_bytes(), second.as_bytes())
        }
        [
            command,
            name,
            snapshot,
            depth_word,
            depth,
            width_word,
            width,
        ] => long_form(
            command.as_bytes(),
            name.as_bytes(),
            snapshot.as_bytes(),
            depth_word.as_bytes(),
            depth.as_bytes(),
            width_word.as_bytes(),
            width.as_bytes(),
        ),
        _ => None,
    }
}

/// `check L`, `show B`.
fn file_form<'a>(command: &[u8], name: &'a [u8]) -> Option<Form<'a>>
    ensures form { option_map (λ f. named f) result ≡ file_form command.now name.now }
    ensures shallow { IfSome result (λ f. IsShallow (named f)) }
{
    let name = utf8(name)?;
    if command == b"check".as_slice() {
        return Some(Form::Layout(name, LayoutCommand::Check));
    }
    if command == b"show".as_slice() {
        return Some(Form::Bundle(name, BundleCommand::Show));
    }
    None
}

/// `emit dwarf L`, or `text L S` and `print B S`, for which no depth and no width is asked.
fn short_form<'a>(command: &[u8], first: &'a [u8], second: &'a [u8]) -> Option<Form<'a>>
    ensures form { option_map (λ f. named f) result ≡ short_form command.now first.now second.now }
    ensures shallow { IfSome result (λ f. IsShallow (named f)) }
{
    if command == b"emit".as_slice() {
        emit_form(first, second)
    } else {
        printing_form(command, first, second, DEPTH, WIDTH)
    }
}

/// `emit dwarf L`, of the words behind the first.
fn emit_form<'a>(format: &[u8], name: &'a [u8]) -> Option<Form<'a>>
    ensures form { option_map (λ f. named f) result ≡ emit_form format.now name.now }
    ensures shallow { IfSome result (λ f. IsShallow (named f)) }
{
    if format != b"dwarf".as_slice() {
        return None;
    }
    let name = utf8(name)?;
    Some(Form::Layout(name, LayoutCommand::Emit))
}

/// `text L S`, `print B S`, at a depth and a width.
fn printing_form<'a>(
    command: &[u8],
    name: &'a [u8],
    snapshot: &'a [u8],
    depth: u32,
    width: u32,
) -> Option<Form<'a>>
    requires { depth ≤ 4 }
    ensures form { option_map (λ f. named f) result ≡ printing_form command.now name.now snapshot.now depth width }
    ensures shallow { IfSome result (λ f. IsShallow (named f)) }
{
    let name = utf8(name)?;
    let snapshot = utf8(snapshot)?;
    let printing = Printing {
        snapshot,
        depth,
        width,
    };
    if command == b"text".as_slice() {
        return Some(Form::Layout(name, LayoutCommand::Text(printing)));
    }
    if command == b"print".as_slice() {
        return Some(Form::Bundle(name, BundleCommand::Print(printing)));
    }
    None
}

/// `text L S --depth N --width N`, `print B S --depth N --width N`.
fn long_form<'a>(
    command: &[u8],
    name: &'a [u8],
    snapshot: &'a [u8],
    depth_word: &[u8],
    depth: &[u8],
    width_word: &[u8],
    width: &[u8],
) -> Option<Form<'a>>
    ensures form { option_map (λ f. named f) result ≡ long_form command.now name.now snapshot.now depth_word.now depth.now width_word.now width.now }
    ensures shallow { IfSome result (λ f. IsShallow (named f)) }
{
    if depth_word != b"--depth".as_slice() || width_word != b"--width".as_slice() {
        return None;
    }
    let depth = number_from(depth, 0, 4)?;
    let width = number_from(width, 1, 256)?;
    printing_form(command, name, snapshot, depth, width)
}

/// The number between these bounds that the word spells, in decimal without leading zeros.
fn number_from(word: &[u8], least: u32, most: u32) -> Option<u32>
    ensures value { result ≡ number_from least most word.now }
    ensures within { IfSome result (λ n. n ≤ most) }
{
    let n = read_decimal(word)?;
    if u128::from(least) <= n && n <= u128::from(most) {
        Some(n as u32)
    } else {
        None
    }
}

/// The bytes as text, if they are UTF-8.
fn utf8(bytes: &[u8]) -> Option<&str>
    ensures { option_copied result ≡ (if is_utf8 bytes.now then Some bytes.now else None) }
{
    match str::from_utf8(bytes) {
        Ok(text) => Some(text),
        Err(_) => None,
    }
}
