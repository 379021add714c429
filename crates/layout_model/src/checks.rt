//! The laws, one after the other.
ghost use Rattle.std.specs.Prelude.{◌≡◌};
ghost use Rattle.std.specs.List.{All};
ghost use Rattle.layout_set.specs.FirstBreach.{Checked};
ghost use Rattle.layout_set.specs.Found.{InOrder};
ghost use Rattle.layout_set.specs.Laws.{sound_laws, further_laws, laws};
ghost use Rattle.layout_set.specs.Law5.{HasFitNumbers};
ghost use Rattle.layout_set.specs.IsSet.{IsSet};
ghost use Rattle.layout_set.specs.Sizes.{AreSmall};

use layout_func_laws::law_12::law_12;
use layout_func_laws::law_13::law_13;
use layout_func_laws::law_14::law_14;
use layout_name_laws::law_10::law_10;
use layout_set::{CheckErr, Set};
use layout_type_laws::law_1::law_1;
use layout_type_laws::law_2::law_2;
use layout_type_laws::law_3::law_3;
use layout_type_laws::law_4::law_4;
use layout_type_laws::law_5::law_5;
use layout_type_laws::law_6::law_6;
use layout_type_laws::law_7::law_7;
use layout_type_laws::law_8::law_8;
use layout_type_laws::law_9::law_9;
use layout_type_laws::law_11::law_11;
use std::alloc::Global;

/// Checks laws 1 to 6, each where those before it hold.
fn check_sound_laws(alloc: Global, set: &Set) -> Result<(), CheckErr>
    ensures { InOrder set.now (sound_laws set.now) result }
{
    law_1(alloc, set)?;
    law_2(alloc, set)?;
    law_3(set)?;
    law_4(set)?;
    law_5(set)?;
    law_6(set)
}

/// Checks that a set is sound: laws 1 to 6 of `docs/laws.md`.
pub fn check_sound(alloc: Global, set: &Set) -> Result<(), CheckErr>
    // All of these laws hold, or the lowest that fails is told with its first item.
    ensures { Checked set.now (sound_laws set.now) result }
{
    check_sound_laws(alloc, set)
}

/// Checks laws 7 to 14, each where those before it hold.
fn check_further_laws(alloc: Global, set: &Set) -> Result<(), CheckErr>
    requires names { IsSet set.now }
    requires pointers { set.now.target.ptr ≡ 8 }
    requires small { AreSmall set.now.target.ptr set.now.types }
    requires fit { All (HasFitNumbers set.now.target.ptr) set.now.types }
    ensures { InOrder set.now (further_laws set.now) result }
{
    law_7(alloc, set)?;
    law_8(alloc, set)?;
    law_9(set)?;
    law_10(alloc, set)?;
    law_11(alloc, set)?;
    law_12(alloc, set)?;
    law_13(set)?;
    law_14(alloc, set)
}

/// Checks all laws, each where those before it hold.
fn check_laws(alloc: Global, set: &Set) -> Result<(), CheckErr>
    requires { IsSet set.now }
    ensures { InOrder set.now (laws set.now) result }
{
    check_sound_laws(alloc, set)?;
    check_further_laws(alloc, set)
}

/// Checks that a set is lawful: laws 1 to 14 of `docs/laws.md`.
pub fn check(alloc: Global, set: &Set) -> Result<(), CheckErr>
    requires { IsSet set.now }

    // All laws hold, or the lowest that fails is told with its first item.
    ensures { Checked set.now (laws set.now) result }
{
    check_laws(alloc, set)
}
