//! How many numbers are below another.
ghost use Rattle.std.specs.Prelude.{◌≡◌, count_by, nat_lt};

/// How many of some numbers are below this one. Takes no memory.
pub fn count_below(numbers: &[u32], bound: u32) -> usize
    ensures { result ≡ count_by (λ u. nat_lt u bound) numbers.now }
{
    numbers.iter().filter(|number| **number < bound).count()
}
