//! How declarations are written (DWARF 5, 7.5.3).
ghost use Rattle.std.specs.Prelude.{◌≡◌, ℕ, false, List as Seq, [], ◌∷◌, ◌++◌, Some, OnOk, OnErr, All};
ghost use Rattle.rv_bytes.specs.Forms.{row};
ghost use Rattle.rv_bytes.specs.Writers.{IsPut, Extends};
ghost use Rattle.dwarf_abbrev.specs.Tables.{pair, pairs, end, decl, table};
ghost use Rattle.dwarf_abbrev.specs.Declarations.{IsFresh, IsSpec, IsDeclaration, AreDeclarations};

use crate::attr::Spec;
use crate::decl::Abbrev;
use crate::form;
use rv_bytes::{put_sleb, put_u8, put_uleb};
use rv_io::{Buf, List, Memory};

/// An attribute and its form, and the number of an implicit_const.
fn put_pair(out: &mut Buf, spec: &Spec) -> Result<(), Memory>
    requires { IsSpec spec.now }
    ensures put { OnOk result (IsPut pair spec.now out.old out.new) }
    ensures kept { Extends out.old out.new }
{
    put_uleb(out, spec.attr)?;
    put_uleb(out, spec.form)?;
    if spec.form == form::IMPLICIT_CONST {
        put_sleb(out, spec.fixed)?;
    }
    Ok(())
}

/// The attributes of a declaration, up to the pair 0, 0.
fn put_pairs(out: &mut Buf, specs: &[Spec]) -> Result<(), Memory>
    requires { All IsSpec specs.now }
    ensures put { OnOk result (IsPut (row pairs false) (specs.now ++ end ∷ []) out.old out.new) }
    ensures kept { Extends out.old out.new }
{
    for spec in specs {
        put_pair(out, spec)?;
    }
    put_uleb(out, 0)?;
    put_uleb(out, 0)
}

/// A declaration.
fn put_decl(out: &mut Buf, declaration: &Abbrev) -> Result<(), Memory>
    requires { IsDeclaration declaration.now }
    ensures put { (codes : Seq ℕ) → IsFresh codes declaration.now.code → OnOk result (IsPut (decl codes) (Some declaration.now) out.old out.new) }
    ensures kept { Extends out.old out.new }
{
    put_uleb(out, declaration.code)?;
    put_uleb(out, declaration.tag)?;
    put_u8(out, u8::from(declaration.children))?;
    put_pairs(out, declaration.specs.as_slice())
}

/// The declarations, up to the code 0.
fn put_decls(out: &mut Buf, list: &[Abbrev]) -> Result<(), Memory>
    requires { AreDeclarations list.now }
    ensures put { OnOk result (IsPut table list.now out.old out.new) }
    ensures kept { Extends out.old out.new }
{
    for declaration in list {
        put_decl(out, declaration)?;
    }
    put_uleb(out, 0)
}

/// Appends the table of these declarations (DWARF 5, 7.5.3).
///
/// Out of memory, the buffer is as it was.
pub fn put_table(out: &mut Buf, list: &List<Abbrev>) -> Result<(), Memory>
    requires { AreDeclarations list.now }
    ensures appended { OnOk result (IsPut table list.now out.old out.new) }
    ensures same { OnErr result (out.new ≡ out.old) }
{
    let start = out.as_bytes().len();
    match put_decls(out, list.as_slice()) {
        Ok(()) => Ok(()),
        Err(e) => {
            out.truncate(start);
            Err(e)
        }
    }
}
