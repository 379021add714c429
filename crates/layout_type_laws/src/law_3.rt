//! Law 3: how large types are.
ghost use Rattle.std.specs.Prelude.{length};
ghost use Rattle.layout_set.specs.Found.{IsFirst, Found};
ghost use Rattle.layout_set.specs.Law3.{IsSmall, Law3};

use layout_set::breach::breach;
use layout_set::{CheckErr, Set, TypeDef, def_size};

/// The first type whose size is 2^31 or more.
#[tactic(auto, using(layout_set::proofs::SizeSteps::size_of_user))]
fn first_3(ptr: u8, types: &[TypeDef]) -> Option<usize>
    ensures { IsFirst (IsSmall ptr types.now) (length types.now) result }
{
    for (i, def) in types.iter().enumerate() {
        if def_size(ptr, types, def) >= 0x8000_0000 {
            return Some(i);
        }
    }
    None
}

/// Law 3: pointers have 8 bytes, and sizes are below 2^31.
pub fn law_3(set: &Set) -> Result<(), CheckErr>
    ensures { Found set.now 3 (Law3 set.now) result }
{
    breach(
        3,
        set.target.ptr == 8,
        first_3(set.target.ptr, set.types.as_slice()),
        None,
        None,
    )
}
