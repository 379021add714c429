//! The lowest of the rules that an entry breaks.
ghost use Rattle.std.specs.Prelude.{◌≡◌, [], ◌∷◌};
ghost use Rattle.dwarf_entries.specs.Items.{lowest, rule_if};

/// The rule, where it is broken. Takes no memory.
pub fn rule_if(broken: bool, rule: u8) -> Option<u8>
    ensures { result ≡ rule_if broken rule }
{
    if broken { Some(rule) } else { None }
}

/// The lower of two rules that are broken. Takes no memory.
pub fn lowest(first: Option<u8>, second: Option<u8>) -> Option<u8>
    ensures { result ≡ lowest (first ∷ second ∷ []) }
{
    match (first, second) {
        (Some(a), Some(b)) => Some(a.min(b)),
        (Some(a), None) => Some(a),
        (None, Some(b)) => Some(b),
        (None, None) => None,
    }
}
