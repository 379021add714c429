//! Static members: LF_STMEMBER.
ghost use Rattle.std.specs.Prelude.{◌≡◌, length, min};
ghost use Rattle.cv_type_defs.specs.Helpers.{only};
ghost use Rattle.cv_type_defs.specs.Links.{target};
ghost use Rattle.cv_links.specs.Seen.{target_seen};
ghost use Rattle.cv_enum_helpers.specs.Times.{TakesNext, named_static, statics_among};

use cv_links::{Links, Members, Placed, Target};
use cv_type_records::Member;
use std::marker::Model;

/// A static member, and the place of the record in which it is. Contracts see both.
#[derive(Drop)]
pub struct StaticMember {
    list: usize,
    ty: u32,
}

impl Model for StaticMember {
    ghost use Rattle.cv_type_defs.specs.Helpers.{StaticMember as Seen};

    ghost Value = { Seen };

    ghost view = { λ s. record { list = s.list; ty = s.ty } };
}

impl StaticMember {
    /// Where its type leads, below the record in which it is. Takes no memory.
    pub fn target(&self, links: &Links<'_>) -> Target
        ensures { target_seen result ≡ target links.now self.now.list self.now.ty }
    {
        links.target(self.list, self.ty)
    }
}

/// The static member that a member is, if it is one of this name.
fn named_static(name: &[u8], placed: &Placed<'_>) -> Option<StaticMember>
    ensures { result ≡ named_static name.now placed.now }
{
    match placed.member() {
        Member::Static { ty, name: text, .. } => {
            if text.as_bytes() == name {
                Some(StaticMember {
                    list: placed.list(),
                    ty: *ty,
                })
            } else {
                None
            }
        }
        _ => None,
    }
}

/// The next static member of this name.
fn next_named(name: &[u8], members: &mut Members<'_>) -> Option<StaticMember>
    ensures { TakesNext name.now members.old result members.new }
{
    while let Some(placed) = members.next() {
        if let Some(found) = named_static(name, &placed) {
            return Some(found);
        }
    }
    None
}

/// The static member of this name among some members, where there is just one. Takes no memory.
pub fn only_static(name: &[u8], mut members: Members<'_>) -> Option<StaticMember>
    ensures { result ≡ only (statics_among name.now members.entry) }
{
    let first = next_named(name, &mut members)?;
    match next_named(name, &mut members) {
        Some(_) => None,
        None => Some(first),
    }
}

/// How many static members of this name there are among some members; 2 stands for more. Takes no memory.
pub fn static_times(name: &[u8], mut members: Members<'_>) -> u8
    ensures { result ≡ min 2 (length (statics_among name.now members.entry)) }
{
    if next_named(name, &mut members).is_none() {
        return 0;
    }
    if next_named(name, &mut members).is_none() {
        return 1;
    }
    2
}
