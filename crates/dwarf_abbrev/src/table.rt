//! Abbreviation tables (DWARF 5, 7.5.3).
ghost use Rattle.std.specs.Prelude.{◌≡◌, nat_eq, [], ◌∷◌, ◌++◌, IfOk, IfErr, IfSome, option_copied};
ghost use Rattle.std.specs.List.{list_any};
ghost use Rattle.rv_bytes.specs.Results.{Reads};
ghost use Rattle.rv_bytes.specs.Sections.{BeginsAt, IsFaultAt};
ghost use Rattle.rv_bytes.specs.declared.err.DwErr.{DwErr};
ghost use Rattle.dwarf_abbrev.specs.Rules.{table_outside};
ghost use Rattle.dwarf_abbrev.specs.Tables.{table};
ghost use Rattle.dwarf_abbrev.specs.Declarations.{find_code, codes_of, IsFresh, IsDeclaration, AreDeclarations};
ghost use Rattle.dwarf_abbrev.specs.TableReaders.{read_decl, read_table};

use crate::decl::{Abbrev, read_rest};
use crate::refusal::refused;
use crate::rule;
use rv_bytes::{Cut, DwErr};
use rv_io::List;
use std::alloc::Global;
use std::collections::BTreeMap;
use std::marker::Model;

/// The declarations of an abbreviation table, which are found by their codes. Contracts see their list.
#[derive(Debug, Drop)]
pub struct Table {
    list: List<Abbrev>,
    places: BTreeMap<u64, usize>,
}

impl Model for Table {
    ghost use Rattle.std.specs.Prelude.{List, ◌≡◌};
    ghost use Rattle.dwarf_abbrev.specs.declared.decl.Abbrev.{Abbrev};
    ghost use Rattle.dwarf_abbrev.specs.Declarations.{HasPlaces, AreDeclarations};

    ghost Value = { List Abbrev };

    ghost view = { λ t. t.list };

    ghost invariant = { λ t. HasPlaces t.places t.list × AreDeclarations t.list };
}

impl Table {
    /// The table of no declarations.
    fn new(alloc: Global) -> Table
        ensures { result ≡ [] }
    {
        Table {
            list: List::new(alloc),
            places: BTreeMap::new(alloc),
        }
    }

    /// The table with one declaration more.
    fn with(self, declaration: Abbrev) -> Result<Table, DwErr>
        requires fresh { IsFresh (codes_of self) declaration.code }
        requires sound { IsDeclaration declaration }
        ensures more { IfOk result (λ t. t ≡ self ++ declaration ∷ []) }
        ensures memory { IfErr result (λ e. e ≡ DwErr.Memory) }
    {
        let Table {
            mut list,
            mut places,
        } = self;
        let place = list.as_slice().len();
        if places.insert(declaration.code, place).is_err() {
            return Err(DwErr::Memory);
        }
        list.push(declaration)?;
        Ok(Table { list, places })
    }

    /// Whether a declaration has the code.
    fn has(&self, code: u64) -> bool
        ensures { result ≡ list_any (nat_eq code) (codes_of self.now) }
    {
        self.places.contains_key(&code)
    }

    /// The declaration that has the code; None where none has it. Takes no memory, and time that
    /// grows with the logarithm of the count of declarations.
    pub fn find(&self, code: u64) -> Option<&Abbrev>
        ensures { option_copied result ≡ find_code self.now code }
    {
        let place = *self.places.get(&code)?;
        self.list.as_slice().get(place)
    }

    /// The declarations, in the order of the table. Takes no memory.
    pub fn as_slice(&self) -> &[Abbrev]
        ensures same { result.now ≡ self.now }
        ensures sound { AreDeclarations self.now }
    {
        self.list.as_slice()
    }

    /// The list of the declarations, in the order of the table. Takes no memory.
    pub fn into_list(self) -> List<Abbrev>
        ensures same { result ≡ self }
        ensures sound { AreDeclarations self }
    {
        let Table { list, .. } = self;
        list
    }
}

/// The next declaration, whose code none before it has; None at the code 0, which ends the table.
fn read_decl(alloc: Global, cut: &mut Cut<'_>, before: &Table) -> Result<Option<Abbrev>, DwErr>
    ensures reads { Reads (read_decl (codes_of before.now) cut.old.at cut.old.rest) result cut.new }
    ensures fresh { IfOk result (λ o. IfSome o (λ a. IsFresh (codes_of before.now) a.code)) }
    ensures sound { IfOk result (λ o. IfSome o IsDeclaration) }
{
    let at = cut.at();
    let code = cut.uleb()?;
    if before.has(code) {
        return Err(refused(at, rule::CODE_OR_TAG));
    }
    if code == 0 {
        return Ok(None);
    }
    Ok(Some(read_rest(alloc, cut, code)?))
}

/// The table at the cut's place, and the cut past it.
fn read_decls(alloc: Global, cut: &mut Cut<'_>) -> Result<Table, DwErr>
    ensures { Reads (read_table cut.old.at cut.old.rest) result cut.new }
{
    let mut table = Table::new(alloc);
    while let Some(decl) = read_decl(alloc, cut, &table)? {
        table = table.with(decl)?;
    }
    Ok(table)
}

/// Reads the table that begins `at` bytes from the start of `section`, which is the whole of
/// `.debug_abbrev` (DWARF 5, 7.5.3). What follows the table isn't looked at.
///
/// The `offset` of a refusal is in bytes from the section's start, where the first invalid item
/// begins; at `at` itself where that is at the section's end or after it. Its rules: 10 where the
/// section ends inside a number, 11 where a LEB128 number is too wide, 24 where `at` is outside the
/// section, 25 where a children byte is neither 0 nor 1, 26 where an earlier declaration has the code,
/// or the tag is 0, 28 where a form is none of the constants of [`form`](crate::form). Takes memory for
/// the declarations.
pub fn read_table(alloc: Global, section: &[u8], at: u64) -> Result<Table, DwErr>
    // From the place on the section begins with bytes of the table.
    ensures table { IfOk result (BeginsAt table section.now at) }

    // What is refused has no table there.
    ensures refused { IfErr result (IsFaultAt table_outside table section.now at) }
{
    if at >= section.len() as u64 {
        return Err(DwErr::Refused {
            offset: at,
            rule: rule::TABLE_OUTSIDE,
        });
    }
    let mut cut = Cut::from_place(section, at as usize);
    read_decls(alloc, &mut cut)
}
