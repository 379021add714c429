//! The printed lines of functions and of their variables.
ghost use Rattle.std.specs.Prelude.{◌≡◌, ◌++◌, ◌<◌, ◌≤◌, ℕ, List, OnOk, OnErr, IfOk, HoldsAt, length, take};
ghost use Rattle.std.specs.List.{All, filter, list_any};
ghost use Rattle.std.specs.Option.{option_map};
ghost use Rattle.image_view.specs.Places.{part_of};
ghost use Rattle.layout_values.specs.Contexts.{context_of};
ghost use Rattle.layout_set.specs.HasSizes.{HasSizes};
ghost use Rattle.layout_set.specs.Law1.{VarWithin, VarsWithin, HasVarsWithin};
ghost use Rattle.layout_values.specs.Outcomes.{HasTexts};
ghost use Rattle.layout_values.specs.Places.{place_of};
ghost use Rattle.layout_values.specs.Shown.{IsVarShown};
ghost use Rattle.layout_set.specs.Sizes.{size};
ghost use Rattle.value_reader.specs.OutcomesIn.{outcome_of};
ghost use Rattle.dbg_command.specs.Lines.{AreEach, AreVarLines, IsFuncText, IsVarLine, func_line, var_line, is_in, is_entered, is_called, first_is_entered};

use crate::shown::put_outcome;
use crate::view::View;
use bumpalo::Bump;
use layout_file::put_name;
use layout_set::{Func, Scope, Set, Var, Zone, size_of};
use rv_io::{Buf, Memory};
use snapshot_file::Snapshot;
use std::alloc::Global;
use value_reader::{Located, OutcomeIn, locate};

impl View<'_> {
    /// The functions whose body has the program counter, each with its variables.
    pub(crate) fn put_funcs(&self, alloc: Global, out: &mut Buf) -> Result<(), Memory>
        requires sizes { HasSizes self.now.set.now }
        requires shallow { self.now.depth ≤ 4 }
        ensures put { OnOk result ((text : List ℕ) × (out.new ≡ out.old ++ text) × AreEach
            (IsFuncText (context_of self.now.set.now self.now.snap.now.mem self.now.width)
            self.now.snap.now self.now.depth) (filter (is_called self.now.snap.now.pc)
            self.now.set.now.funcs) text) }
        ensures front { OnErr result (take (length out.old) out.new ≡ out.old) }
    {
        self.put_called(alloc, self.set.funcs.as_slice(), out)
    }

    /// Those of the functions whose body has the program counter.
    fn put_called(&self, alloc: Global, funcs: &[Func], out: &mut Buf) -> Result<(), Memory>
        requires sizes { HasSizes self.now.set.now }
        requires within { All (HasVarsWithin (length self.now.set.now.types)) funcs.now }
        requires shallow { self.now.depth ≤ 4 }
        ensures put { OnOk result ((text : List ℕ) × (out.new ≡ out.old ++ text) × AreEach
            (IsFuncText (context_of self.now.set.now self.now.snap.now.mem self.now.width)
            self.now.snap.now self.now.depth) (filter (is_called self.now.snap.now.pc) funcs.now)
            text) }
        ensures front { OnErr result (take (length out.old) out.new ≡ out.old) }
    {
        for func in funcs {
            if is_called(self.snap.pc, func) {
                self.put_func(alloc, func, out)?;
            }
        }
        Ok(())
    }

    /// The line of a function, and those of each of its scopes that has the program counter.
    fn put_func(&self, alloc: Global, func: &Func, out: &mut Buf) -> Result<(), Memory>
        requires sizes { HasSizes self.now.set.now }
        requires within { HasVarsWithin (length self.now.set.now.types) func.now }
        requires shallow { self.now.depth ≤ 4 }
        ensures put { OnOk result ((text : List ℕ) × (out.new ≡ out.old ++ text) × IsFuncText
            (context_of self.now.set.now self.now.snap.now.mem self.now.width) self.now.snap.now
            self.now.depth func.now text) }
        ensures front { OnErr result (take (length out.old) out.new ≡ out.old) }
    {
        put_func_line(func, out)?;
        self.put_scopes(alloc, func.scopes.as_slice(), out)
    }

    /// The lines of the scopes that have the program counter.
    fn put_scopes(&self, alloc: Global, scopes: &[Scope], out: &mut Buf) -> Result<(), Memory>
        requires sizes { HasSizes self.now.set.now }
        requires within { All (VarsWithin (length self.now.set.now.types)) scopes.now }
        requires shallow { self.now.depth ≤ 4 }
        ensures put { OnOk result ((text : List ℕ) × (out.new ≡ out.old ++ text) × AreEach
            (AreVarLines (context_of self.now.set.now self.now.snap.now.mem self.now.width)
            self.now.snap.now self.now.depth) (filter (is_entered self.now.snap.now.pc) scopes.now)
            text) }
        ensures front { OnErr result (take (length out.old) out.new ≡ out.old) }
    {
        for scope in scopes {
            if is_entered(self.snap.pc, scope) {
                self.put_vars(alloc, scope.vars.as_slice(), out)?;
            }
        }
        Ok(())
    }

    /// A line for each variable.
    fn put_vars(&self, alloc: Global, vars: &[Var], out: &mut Buf) -> Result<(), Memory>
        requires sizes { HasSizes self.now.set.now }
        requires within { All (VarWithin (length self.now.set.now.types)) vars.now }
        requires shallow { self.now.depth ≤ 4 }
        ensures put { OnOk result ((text : List ℕ) × (out.new ≡ out.old ++ text) × AreEach
            (IsVarLine (context_of self.now.set.now self.now.snap.now.mem self.now.width)
            self.now.snap.now self.now.depth) vars.now text) }
        ensures front { OnErr result (take (length out.old) out.new ≡ out.old) }
    {
        for var in vars {
            self.put_var(alloc, var, out)?;
        }
        Ok(())
    }

    /// The line of a variable.
    fn put_var(&self, alloc: Global, var: &Var, out: &mut Buf) -> Result<(), Memory>
        requires sizes { HasSizes self.now.set.now }
        requires within { VarWithin (length self.now.set.now.types) var.now }
        requires shallow { self.now.depth ≤ 4 }
        ensures put { OnOk result ((line : List ℕ) × (out.new ≡ out.old ++ line) × IsVarLine
            (context_of self.now.set.now self.now.snap.now.mem self.now.width) self.now.snap.now
            self.now.depth var.now line) }
        ensures front { OnErr result (take (length out.old) out.new ≡ out.old) }
    {
        let bump = Bump::new(alloc);
        let outcome = self.outcome_of_var(&bump, alloc, var)?;
        put_var_line(var, outcome, out)
    }

    /// What is shown of a variable, in the arena.
    fn outcome_of_var<'b>(
        &self,
        bump: &'b Bump,
        alloc: Global,
        var: &Var,
    ) -> Result<OutcomeIn<'b>, Memory>
        requires sizes { HasSizes self.now.set.now }
        requires within { VarWithin (length self.now.set.now.types) var.now }
        requires shallow { self.now.depth ≤ 4 }
        ensures outcome { IfOk result (λ o. IsVarShown
            (context_of self.now.set.now self.now.snap.now.mem self.now.width) self.now.snap.now
            self.now.depth var.now (outcome_of o)) }
        ensures texts { IfOk result (λ o. HasTexts (outcome_of o)) }
    {
        match located(alloc, self.set, var, self.snap)? {
            Some(located) => self.outcome_in(bump, var.ty, located.image()),
            None => Ok(OutcomeIn::Unavailable),
        }
    }
}

/// Where the variable is, if an entry says so of the program counter.
fn located<'a>(
    alloc: Global,
    set: &Set,
    var: &'a Var,
    snap: &'a Snapshot,
) -> Result<Option<Located<'a>>, Memory>
    requires sizes { HasSizes set.now }
    requires within { VarWithin (length set.now.types) var.now }
    ensures { IfOk result (λ found. option_map (λ l. part_of l) found ≡ place_of set.now.target.ptr
        snap.now var.now.entries (size set.now.target.ptr set.now.types var.now.ty)) }
{
    locate(alloc, &var.entries, size_of(set, var.ty), snap)
}

/// Whether the body of the function has the program counter.
fn is_called(pc: u64, func: &Func) -> bool
    ensures { result ≡ is_called pc func.now }
{
    match func.scopes.as_slice().first() {
        Some(body) => is_entered(pc, body),
        None => false,
    }
}

/// Whether a zone of the scope has the program counter.
fn is_entered(pc: u64, scope: &Scope) -> bool
    ensures { result ≡ is_entered pc scope.now }
{
    has_pc(pc, scope.zones.as_slice())
}

/// Whether one of the zones has the program counter.
#[tactic(auto, using(rv_io::proofs::Steps::drop_step))]
fn has_pc(pc: u64, zones: &[Zone]) -> bool
    ensures { result ≡ list_any (is_in pc) zones.now }
{
    for zone in zones {
        if is_in(pc, *zone) {
            return true;
        }
    }
    false
}

fn is_in(pc: u64, zone: Zone) -> bool
    ensures { result ≡ is_in pc zone }
{
    zone.lo <= pc && pc < zone.hi
}

fn put_func_line(func: &Func, out: &mut Buf) -> Result<(), Memory>
    ensures put { OnOk result (out.new ≡ out.old ++ func_line func.now) }
    ensures front { OnErr result (take (length out.old) out.new ≡ out.old) }
{
    out.put(b"fn ")?;
    put_name(&func.name, out)?;
    out.put(b"\n")
}

/// The line of a variable of which this is shown.
fn put_var_line(var: &Var, outcome: OutcomeIn<'_>, out: &mut Buf) -> Result<(), Memory>
    requires { HasTexts (outcome_of outcome) }
    ensures put { OnOk result (out.new ≡ out.old ++ var_line var.now (outcome_of outcome.entry)) }
    ensures front { OnErr result (take (length out.old) out.new ≡ out.old) }
{
    out.put(b"  ")?;
    out.put(var.name.as_bytes())?;
    out.put(b" = ")?;
    put_outcome(outcome, out)?;
    out.put(b"\n")
}
