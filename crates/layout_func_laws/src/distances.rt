//! Law 14: how far apart statics and code lie.
ghost use Rattle.std.specs.Prelude.{◌≡◌, ◌++◌, length, map, IfOk, OnOk};
ghost use Rattle.std.specs.Bool.{Decides};
ghost use Rattle.std.specs.List.{HoldsAt, flat_map};
ghost use Rattle.layout_set.specs.Found.{IsFirst};
ghost use Rattle.layout_set.specs.Law14.{addresses, lowest, AreClose, zones_of, IsCompact, HasAddress};

use layout_set::{Func, Scope, Static, Zone};
use std::alloc::{AllocError, Global};

/// The addresses of the statics that have one, in their order.
fn addresses(alloc: Global, statics: &[Static]) -> Result<Vec<u64>, AllocError>
    ensures { IfOk result (λ v. v.items ≡ addresses statics.now) }
{
    statics.iter().filter_map(|fixed| fixed.addr).collect(alloc)
}

/// The lowest of some addresses, or the last address there is.
#[tactic(auto, using(crate::proofs::Places::lowest_at_first))]
fn lowest(places: &[u64]) -> u64
    ensures { result ≡ lowest places.now }
{
    let mut low = u64::MAX;
    for place in places {
        low = low.min(*place);
    }
    low
}

/// Whether no address is more than 2^32 - 1 above the lowest.
fn are_close(places: &[u64]) -> bool
    ensures { Decides result (AreClose places.now) }
{
    let low = lowest(places);
    for place in places {
        if place.saturating_sub(low) > 0xffff_ffff {
            return false;
        }
    }
    true
}

/// Whether the statics' addresses are less than 2^32 bytes from the lowest of them.
pub(crate) fn statics_are_close(alloc: Global, statics: &[Static]) -> Result<bool, AllocError>
    ensures { IfOk result (λ close. Decides close (AreClose (addresses statics.now))) }
{
    let places = addresses(alloc, statics)?;
    Ok(are_close(places.as_slice()))
}

/// The first static without an address.
pub(crate) fn first_without_address(statics: &[Static]) -> Option<usize>
    ensures { IsFirst (HoldsAt HasAddress statics.now) (length statics.now) result }
{
    for (i, fixed) in statics.iter().enumerate() {
        if fixed.addr.is_none() {
            return Some(i);
        }
    }
    None
}

/// Appends the zones.
fn add_zones(found: &mut Vec<Zone>, zones: &[Zone]) -> Result<(), AllocError>
    ensures { OnOk result (found.new.items ≡ found.old.items ++ zones.now) }
{
    for zone in zones {
        found.push(*zone)?;
    }
    Ok(())
}

/// Appends the zones of all scopes.
fn add_scopes(found: &mut Vec<Zone>, scopes: &[Scope]) -> Result<(), AllocError>
    ensures { OnOk result (found.new.items ≡ found.old.items ++ flat_map (λ s. s.zones) scopes.now) }
{
    for scope in scopes {
        add_zones(found, scope.zones.as_slice())?;
    }
    Ok(())
}

/// The zones of all scopes of functions.
fn zones_of(alloc: Global, funcs: &[Func]) -> Result<Vec<Zone>, AllocError>
    ensures { IfOk result (λ zones. zones.items ≡ flat_map zones_of funcs.now) }
{
    let mut found = Vec::new(alloc);
    for func in funcs {
        add_scopes(&mut found, func.scopes.as_slice())?;
    }
    Ok(found)
}

/// The lowest begin of some zones, or the last address there is.
#[tactic(auto, using(crate::proofs::Places::lowest_at_first))]
fn lowest_begin(zones: &[Zone]) -> u64
    ensures { result ≡ lowest (map (λ z. z.lo) zones.now) }
{
    let mut low = u64::MAX;
    for zone in zones {
        low = low.min(zone.lo);
    }
    low
}

/// Whether no zone ends more than 2^32 - 1 past the lowest begin.
fn is_compact(zones: &[Zone]) -> bool
    ensures { Decides result (IsCompact zones.now) }
{
    let low = lowest_begin(zones);
    for zone in zones {
        if zone.hi.saturating_sub(low) > 0xffff_ffff {
            return false;
        }
    }
    true
}

/// Whether the code of all functions lies less than 2^32 bytes from its lowest byte.
pub(crate) fn code_is_compact(alloc: Global, funcs: &[Func]) -> Result<bool, AllocError>
    ensures { IfOk result (λ compact. Decides compact (IsCompact (flat_map zones_of funcs.now))) }
{
    let zones = zones_of(alloc, funcs)?;
    Ok(is_compact(zones.as_slice()))
}
