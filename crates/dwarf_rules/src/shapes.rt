//! What entries are as the parents of members and template parameters, found once for all of these
//! (DWARF 5, 5.7.1, 5.7.6 and 5.7.10).
ghost use Rattle.std.specs.Prelude.{◌≡◌, IfOk};
ghost use Rattle.dwarf_rules.specs.Shapes.{fat_or_plain, is_enum, is_fat, is_plain, shape_of, shapes_of};

use dwarf_dies::Die;
use dwarf_links::TypeLinks;
use dwarf_pointers::fat_pointer;
use dwarf_scopes::has_part;
use dwarf_scopes::tags::is_numbered;
use layout_set::TypeDef;
use rv_io::{List, Memory};
use std::alloc::Global;

/// What an entry is as the parent of members.
#[derive(Clone, Copy, Debug, PartialEq, Eq)]
pub enum Shape {
    /// It has a variant part.
    Enum,
    /// It is a fat pointer.
    FatPointer,
    /// It is neither.
    Plain,
}

impl Shape {
    /// Whether it has a variant part. Takes no memory.
    pub fn is_enum(self) -> bool
        ensures { result ≡ is_enum self }
    {
        matches!(self, Shape::Enum)
    }

    /// Whether it is a fat pointer. Takes no memory.
    pub fn is_fat(self) -> bool
        ensures { result ≡ is_fat self }
    {
        matches!(self, Shape::FatPointer)
    }

    /// Whether it is neither. Takes no memory.
    pub fn is_plain(self) -> bool
        ensures { result ≡ is_plain self }
    {
        matches!(self, Shape::Plain)
    }
}

/// What each entry is, in order.
#[derive(Drop)]
pub struct Shapes {
    shapes: List<Shape>,
}

/// What an entry without a variant part is.
fn fat_or_plain(fat: Option<TypeDef>) -> Shape
    ensures { result ≡ fat_or_plain fat }
{
    match fat {
        Some(_) => Shape::FatPointer,
        None => Shape::Plain,
    }
}

/// What an entry is. Takes memory for its name and its members.
fn shape_of(alloc: Global, links: &TypeLinks<'_>, die: &Die<'_>) -> Result<Shape, Memory>
    requires { die.now.info ≡ links.now }
    ensures { IfOk result (λ s. s ≡ shape_of links.now die.now.die) }
{
    if !is_numbered(die.what()) {
        return Ok(Shape::Plain);
    }
    if has_part(die) {
        return Ok(Shape::Enum);
    }
    let fat = fat_pointer(alloc, links, die)?;
    Ok(fat_or_plain(fat))
}

/// Finds what each entry is. Takes memory for that, and for the names and the members of types.
pub fn read_shapes(alloc: Global, links: &TypeLinks<'_>) -> Result<Shapes, Memory>
    ensures { IfOk result (λ s. s.shapes ≡ shapes_of links.now) }
{
    let mut shapes = List::new(alloc);
    let dies = links.dies();
    for die in dies.iter() {
        let shape = shape_of(alloc, links, &die)?;
        shapes.push(shape)?;
    }
    Ok(Shapes { shapes })
}

impl Shapes {
    /// What an entry is, of those for which this was read. Takes no memory.
    pub fn of(&self, die: &Die<'_>) -> Shape
        requires { self.now.shapes ≡ shapes_of die.now.info }
        ensures { result ≡ shape_of die.now.info die.now.die }
    {
        let number = die.number();
        match self.shapes.as_slice().get(number as usize) {
            Some(shape) => *shape,
            None => Shape::Plain,
        }
    }
}
