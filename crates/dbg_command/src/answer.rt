//! The answer to the words of a command line.
ghost use Rattle.std.specs.Prelude.{◌≡◌, ◌≤◌, ◌<◌, [], ℕ, Option, Some, IsSome, IfOk, ⊤};
ghost use Rattle.layout_set.specs.Laws.{IsLawful, IsSound};
ghost use Rattle.layout_lines.specs.Sets.{layout_text};
ghost use Rattle.layout_set.specs.HasSizes.{HasSizes};
ghost use Rattle.layout_set.specs.IsSet.{IsSet};
ghost use Rattle.dbg_command.specs.Forms.{form_of, named, layout_command, bundle_command, IsShallow, IsShallowLayout, IsShallowBundle};
ghost use Rattle.dbg_command.specs.Answers.{Answers, OfForm, OfLayout, OfSet, OfLawful, OfCheck, OfEmit, OfText, OfBundle, OfDescribed, WithFile, honesty_text};
ghost use Rattle.dbg_command.specs.Runs.{Gives, Fetched, Fits};
ghost use Rattle.rv_io.specs.Files.{Files, file};

use crate::emitted::bundle_of;
use crate::form::{BundleCommand, Form, LayoutCommand, Printing, form_of};
use crate::printed::lines;
use crate::stop::Stop;
use layout_file::LayoutErr;
use layout_honest::is_honest;
use layout_set::{CheckErr, ReadErr, Set};
use rv_io::{Buf, FetchErr, Inputs, Memory, Text};
use snapshot_file::SnapErr;
use std::alloc::Global;

/// How many bytes a layout file may have.
const LAYOUT_LIMIT: usize = 16 * 1024 * 1024;

/// How many bytes a bundle may have.
const BUNDLE_LIMIT: usize = 512 * 1024 * 1024;

/// How many bytes a snapshot file may have.
const SNAPSHOT_LIMIT: usize = 64 * 1024 * 1024;

/// The whole output, or why there is none.
pub fn answer<'a, I: Inputs>(
    alloc: Global,
    words: &'a [Text],
    inputs: &mut I,
) -> Result<Buf, Stop<'a>>
    ensures result { Gives (I.files inputs.old) (Answers words.entry.now) (I.faults inputs.old) (I.faults inputs.new) result }
    ensures form { Fits (IsSome (form_of words.entry.now)) result }
    ensures later { I.faults inputs.old ≤ I.faults inputs.new }
{
    match form_of(words) {
        Some(form) => of_form(alloc, form, inputs),
        None => Err(Stop::Usage),
    }
}

/// The answer to words of this form.
fn of_form<'a, I: Inputs>(alloc: Global, form: Form<'a>, inputs: &mut I) -> Result<Buf, Stop<'a>>
    requires { IsShallow (named form) }
    ensures result { Gives (I.files inputs.old) (OfForm (Some (named form.entry))) (I.faults inputs.old) (I.faults inputs.new) result }
    ensures form { Fits ⊤ result }
    ensures later { I.faults inputs.old ≤ I.faults inputs.new }
{
    match form {
        Form::Layout(name, command) => of_layout(alloc, name, command, inputs),
        Form::Bundle(name, command) => of_bundle(alloc, name, command, inputs),
    }
}

/// The answer over a layout.
fn of_layout<'a, I: Inputs>(
    alloc: Global,
    name: &'a str,
    command: LayoutCommand<'a>,
    inputs: &mut I,
) -> Result<Buf, Stop<'a>>
    requires { IsShallowLayout (layout_command command) }
    ensures result { Gives (I.files inputs.old) (λ files. WithFile name.entry.now 16777216 (OfLayout (layout_command command.entry) files) (file files name.entry.now)) (I.faults inputs.old) (I.faults inputs.new) result }
    ensures form { Fits ⊤ result }
    ensures later { I.faults inputs.old ≤ I.faults inputs.new }
{
    let bytes = fetch_file(alloc, inputs, name, LAYOUT_LIMIT)?;
    match layout_file::read(alloc, bytes.as_bytes()) {
        Ok(set) => of_set(alloc, command, &set, inputs),
        Err(LayoutErr::BadLine { line, rule }) => Err(Stop::LayoutLine { line, rule }),
        Err(LayoutErr::Limit { which }) => Err(Stop::LayoutLimit(which)),
        Err(LayoutErr::Memory) => Err(Stop::Memory),
    }
}

/// The answer over the set of a layout.
fn of_set<'a, I: Inputs>(
    alloc: Global,
    command: LayoutCommand<'a>,
    set: &Set,
    inputs: &mut I,
) -> Result<Buf, Stop<'a>>
    requires set { IsSet set.now }
    requires shallow { IsShallowLayout (layout_command command) }
    ensures result { Gives (I.files inputs.old) (λ files. OfSet (layout_command command.entry) files set.now) (I.faults inputs.old) (I.faults inputs.new) result }
    ensures form { Fits ⊤ result }
    ensures later { I.faults inputs.old ≤ I.faults inputs.new }
{
    match layout_model::check(alloc, set) {
        Ok(()) => of_lawful(alloc, command, set, inputs),
        Err(CheckErr::Breach { law, at }) => Err(Stop::Breach { law, at }),
        Err(CheckErr::Memory) => Err(Stop::Memory),
    }
}

/// The answer over a lawful set.
fn of_lawful<'a, I: Inputs>(
    alloc: Global,
    command: LayoutCommand<'a>,
    set: &Set,
    inputs: &mut I,
) -> Result<Buf, Stop<'a>>
    requires lawful { IsLawful set.now }
    requires set { IsSet set.now }
    requires shallow { IsShallowLayout (layout_command command) }
    ensures result { Gives (I.files inputs.old) (λ files. OfLawful (layout_command command.entry) files set.now) (I.faults inputs.old) (I.faults inputs.new) result }
    ensures form { Fits ⊤ result }
    ensures later { I.faults inputs.old ≤ I.faults inputs.new }
{
    match command {
        LayoutCommand::Check => Ok(of_check(alloc, set)?),
        LayoutCommand::Text(printing) => of_text(alloc, set, printing, inputs),
        LayoutCommand::Emit => of_emit(alloc, set),
    }
}

/// The answer over a bundle.
fn of_bundle<'a, I: Inputs>(
    alloc: Global,
    name: &'a str,
    command: BundleCommand<'a>,
    inputs: &mut I,
) -> Result<Buf, Stop<'a>>
    requires { IsShallowBundle (bundle_command command) }
    ensures result { Gives (I.files inputs.old) (λ files. WithFile name.entry.now 536870912 (OfBundle (bundle_command command.entry) files) (file files name.entry.now)) (I.faults inputs.old) (I.faults inputs.new) result }
    ensures form { Fits ⊤ result }
    ensures later { I.faults inputs.old ≤ I.faults inputs.new }
{
    let bytes = fetch_file(alloc, inputs, name, BUNDLE_LIMIT)?;
    match bundle_reader::read(alloc, bytes.as_bytes()) {
        Ok(set) => of_described(alloc, command, &set, inputs),
        Err(ReadErr::Refused(refusal)) => Err(Stop::Outside(refusal)),
        Err(ReadErr::Memory) => Err(Stop::Memory),
    }
}

/// The answer over the set that a bundle describes.
fn of_described<'a, I: Inputs>(
    alloc: Global,
    command: BundleCommand<'a>,
    set: &Set,
    inputs: &mut I,
) -> Result<Buf, Stop<'a>>
    requires sound { IsSound set.now }
    requires shallow { IsShallowBundle (bundle_command command) }
    ensures result { Gives (I.files inputs.old) (λ files. OfDescribed (bundle_command command.entry) files set.now) (I.faults inputs.old) (I.faults inputs.new) result }
    ensures form { Fits ⊤ result }
    ensures later { I.faults inputs.old ≤ I.faults inputs.new }
{
    match command {
        BundleCommand::Show => Ok(of_show(alloc, set)?),
        BundleCommand::Print(printing) => of_text(alloc, set, printing, inputs),
    }
}

/// What `show` answers: the layout text of the set.
fn of_show(alloc: Global, set: &Set) -> Result<Buf, Memory>
    ensures { IfOk result (λ output. output ≡ layout_text set.now) }
{
    let mut text = Buf::new(alloc);
    layout_file::write(set, &mut text)?;
    Ok(text)
}

/// What `emit` answers of a lawful set.
fn of_emit<'a>(alloc: Global, set: &Set) -> Result<Buf, Stop<'a>>
    requires lawful { IsLawful set.now }
    requires set { IsSet set.now }
    ensures result { (told : Option Files) (before now : ℕ) → Gives told (λ _. OfEmit set.now set.now.funcs) before now result }
    ensures form { Fits ⊤ result }
{
    match set.funcs.as_slice() {
        [] => Ok(bundle_of(alloc, set)?),
        _ => Err(Stop::NotYet),
    }
}

/// What `check` answers of a lawful set.
fn of_check(alloc: Global, set: &Set) -> Result<Buf, Memory>
    requires { IsLawful set.now }
    ensures { IfOk result (λ output. OfCheck set.now 0 output []) }
{
    let mut text = Buf::new(alloc);
    text.put(honesty_text(is_honest(set)))?;
    Ok(text)
}

/// The two lines of `check`.
fn honesty_text(honest: bool) -> &'static [u8]
    ensures { result.now ≡ honesty_text honest }
{
    match honest {
        true => b"lawful\nhonest yes\n",
        false => b"lawful\nhonest no\n",
    }
}

/// What `text` and `print` answer of a set whose types have sizes.
fn of_text<'a, I: Inputs>(
    alloc: Global,
    set: &Set,
    printing: Printing<'a>,
    inputs: &mut I,
) -> Result<Buf, Stop<'a>>
    requires sizes { HasSizes set.now }
    requires shallow { printing.depth ≤ 4 }
    ensures result { Gives (I.files inputs.old) (OfText set.now printing.entry.depth printing.entry.width printing.entry.snapshot.now) (I.faults inputs.old) (I.faults inputs.new) result }
    ensures form { Fits ⊤ result }
    ensures later { I.faults inputs.old ≤ I.faults inputs.new }
{
    let bytes = fetch_file(alloc, inputs, printing.snapshot, SNAPSHOT_LIMIT)?;
    let snap = match snapshot_file::read(alloc, bytes.as_bytes()) {
        Ok(snap) => snap,
        Err(SnapErr::BadLine { line, rule }) => return Err(Stop::SnapshotLine { line, rule }),
        Err(SnapErr::Overlap { line }) => return Err(Stop::SnapshotOverlap(line)),
        Err(SnapErr::Memory) => return Err(Stop::Memory),
    };
    let mut text = Buf::new(alloc);
    lines(alloc, set, &snap, printing.depth, printing.width, &mut text)?;
    Ok(text)
}

/// The bytes of a file that is within its limit.
fn fetch_file<'a, I: Inputs>(
    alloc: Global,
    inputs: &mut I,
    name: &'a str,
    limit: usize,
) -> Result<Buf, Stop<'a>>
    requires { limit < 1000000000 }
    ensures result { Fetched (I.files inputs.old) name.entry limit (I.faults inputs.old) (I.faults inputs.new) result }
    ensures form { Fits ⊤ result }
    ensures files { I.files inputs.new ≡ I.files inputs.old }
    ensures later { I.faults inputs.old ≤ I.faults inputs.new }
{
    let mut bytes = Buf::new(alloc);
    match inputs.fetch(name, limit + 1, &mut bytes) {
        Ok(()) if bytes.as_bytes().len() <= limit => Ok(bytes),
        Ok(()) => Err(Stop::TooManyBytes(name)),
        Err(FetchErr::NoFile) => Err(Stop::CannotOpen(name)),
        Err(FetchErr::Failed) => Err(Stop::ReadFault),
        Err(FetchErr::Memory) => Err(Stop::Memory),
    }
}
