//! The entries whose parent one is (DWARF 5, 2.3).
ghost use Rattle.std.specs.Prelude.{◌≡◌};
ghost use Rattle.dwarf_dies.specs.Children.{numbers_of_children};
ghost use Rattle.dwarf_dies.specs.Views.{die_of};

use crate::dies::Dies;
use entry_tree::Children;

impl<'a> Dies<'a> {
    /// The numbers of the entries whose parent the entry with this number is, rising; none where there is
    /// no such entry. Takes no memory.
    pub fn children(&self, number: u32) -> Children<'_>
        ensures { result ≡ numbers_of_children self.now (die_of self.now number) }
    {
        self.units.tree.children(number)
    }
}
