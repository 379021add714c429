//! Refusals.
ghost use Rattle.std.specs.Prelude.{◌≡◌};
ghost use Rattle.rv_bytes.specs.Rules.{outside};
ghost use Rattle.rv_bytes.specs.declared.err.DwErr.{DwErr};

use rv_bytes::{DwErr, rule};

/// The refusal of a list that begins outside its section.
pub(crate) fn outside(at: u64) -> DwErr
    ensures { result ≡ DwErr.Refused at outside }
{
    DwErr::Refused {
        offset: at,
        rule: rule::OUTSIDE,
    }
}
