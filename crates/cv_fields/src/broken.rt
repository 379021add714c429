//! The lowest of the rules that a record breaks.
ghost use Rattle.std.specs.Prelude.{◌≡◌};
ghost use Rattle.cv_type_defs.specs.Items.{lower, lowest, rule_if};

/// The rule, where it is broken. Takes no memory.
pub fn rule_if(broken: bool, rule: u8) -> Option<u8>
    ensures { result ≡ rule_if broken rule }
{
    if broken { Some(rule) } else { None }
}

/// The lower of two rules, where there are two. Takes no memory.
pub fn lower(first: Option<u8>, second: Option<u8>) -> Option<u8>
    ensures { result ≡ lower first second }
{
    match (first, second) {
        (Some(a), Some(b)) => Some(a.min(b)),
        (Some(a), None) => Some(a),
        (None, Some(b)) => Some(b),
        (None, None) => None,
    }
}

/// The lowest of some rules that are broken. Takes no memory.
pub fn lowest(rules: &[Option<u8>]) -> Option<u8>
    ensures { result ≡ lowest rules.now }
{
    let mut low = None;
    for rule in rules {
        low = lower(low, *rule);
    }
    low
}
