//! How a line is refused.
ghost use Rattle.std.specs.Prelude.{◌≢◌, None};
ghost use Rattle.layout_rules.specs.Faults.{front_of};
ghost use Rattle.layout_rules.specs.LineRules.{rule_of};
ghost use Rattle.layout_reader.specs.Progress.{Refuses, RefusesEnd};

use crate::layout_err::LayoutErr;
use layout_rules::{Front, rule_of};
use std::alloc::Global;

/// Why a line is refused that breaks a rule; `before` lines stand before it.
pub(crate) fn refuse(alloc: Global, front: Front, before: u32, line: &[u8]) -> LayoutErr
    requires { rule_of (front_of front) line.now ≢ None }
    ensures { Refuses (front_of front.entry) before line.now result }
{
    match rule_of(alloc, front, line) {
        Ok(Some(rule)) => LayoutErr::BadLine {
            line: before.saturating_add(1),
            rule,
        },
        Ok(None) => unreachable!(),
        Err(_) => LayoutErr::Memory,
    }
}

/// Why a file is refused that ends with these bytes behind its last line; `before` lines stand before them.
pub(crate) fn refuse_end(before: u32, rest: &[u8]) -> LayoutErr
    ensures { RefusesEnd before rest.now result }
{
    LayoutErr::BadLine {
        line: before.saturating_add(1),
        rule: if rest.is_empty() { 2 } else { 1 },
    }
}
