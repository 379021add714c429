//! Lengths of derived names, found along links, twice as far in each round.
ghost use Rattle.std.specs.Prelude.{◌≡◌, IfOk, map};
ghost use Rattle.layout_name_laws.specs.NameLengths.{doubled, after_rounds, total, unended, IsSettled};

use std::alloc::{AllocError, Global};

/// A name that ends, with `len` bytes, or that has `len` bytes more than the name of the type at
/// `to`. Lengths are counted up to 1,001.
#[derive(Clone, Copy, Debug, PartialEq, Eq)]
pub(crate) struct NameLength {
    pub(crate) to: Option<u32>,
    pub(crate) len: u32,
}

/// The length over the name that the link leads to, one link further on.
fn doubled(table: &[NameLength], e: NameLength) -> NameLength
    ensures { result ≡ doubled table.now e }
{
    let Some(j) = e.to else {
        return e;
    };
    match table.get(j as usize) {
        None => e,
        Some(f) => NameLength {
            to: f.to,
            len: e.len.saturating_add(f.len).min(1001),
        },
    }
}

/// The table with each length carried on along its link.
fn further(alloc: Global, table: &[NameLength]) -> Result<Vec<NameLength>, AllocError>
    ensures { IfOk result (λ v. v.items ≡ map (doubled table.now) table.now) }
{
    let mut next = Vec::with_capacity(alloc, table.len())?;
    for e in table {
        next.push(doubled(table, *e))?;
    }
    Ok(next)
}

/// How many lengths still lead on.
fn count_unended(table: &[NameLength]) -> usize
    ensures { result ≡ total unended table.now }
{
    let mut count: usize = 0;
    for e in table {
        if e.to.is_some() {
            count += 1;
        }
    }
    count
}

/// The table in which no more names end.
pub(crate) fn settled(
    alloc: Global,
    mut table: Vec<NameLength>,
) -> Result<Vec<NameLength>, AllocError>
    ensures { IfOk result (λ v. IsSettled table.items v.items) }
{
    let mut left = count_unended(table.as_slice());
    loop {
        let next = further(alloc, table.as_slice())?;
        let still_left = count_unended(next.as_slice());
        if still_left >= left {
            return Ok(table);
        }
        table = next;
        left = still_left;
    }
}
