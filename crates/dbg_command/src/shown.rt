//! What is shown of a variable.
ghost use Rattle.std.specs.Prelude.{◌≡◌, ◌++◌, OnOk, OnErr, length, take};
ghost use Rattle.layout_values.specs.Outcomes.{HasTexts};
ghost use Rattle.value_reader.specs.OutcomesIn.{outcome_of};
ghost use Rattle.dbg_command.specs.Lines.{outcome_text};

use rust_value::text_in;
use rv_io::{Buf, Memory};
use value_reader::OutcomeIn;

/// Appends the text of a value, or the word that says why there is none.
pub(crate) fn put_outcome(outcome: OutcomeIn<'_>, out: &mut Buf) -> Result<(), Memory>
    requires { HasTexts (outcome_of outcome) }
    ensures put { OnOk result (out.new ≡ out.old ++ outcome_text (outcome_of outcome.entry)) }
    ensures front { OnErr result (take (length out.old) out.new ≡ out.old) }
{
    match outcome {
        OutcomeIn::Unavailable => out.put(b"<unavailable>"),
        OutcomeIn::Invalid => out.put(b"<invalid>"),
        OutcomeIn::TooLarge => out.put(b"<too large>"),
        OutcomeIn::Value(value) => text_in(&value, out),
    }
}
