//! What holds between the steps of a run, and what a statement does there.
ghost use Rattle.std.specs.Prelude.{◌≡◌, ℕ, ◌+◌, ◌<◌, ◌^◌, true, false, List, [], Option, Some, None, Ok, slice_get, reverse, OnOk, IfOk};
ghost use Rattle.std.specs.Option.{option_copied};
ghost use Rattle.apt_words.specs.Composition.{flow_of, is_fini};
ghost use Rattle.apt_words.specs.declared.body.Body.TheVariants as bodies;
ghost use Rattle.apt_words.specs.declared.deed.Deed.TheVariants as deeds;
ghost use Rattle.apt_words.specs.ProgramEnds as endings;
ghost use Rattle.apt_scalar.specs.Meanings.{meaning};
ghost use Rattle.apt_unroll.specs.Actions as actions;
ghost use Rattle.apt_unroll.specs.Actions.{IsActed, action};
ghost use Rattle.apt_deeds.specs.Deeds as defining;
ghost use Rattle.apt_unroll.specs.Places.{begins_macro, goes_on, place_of};
ghost use Rattle.apt_unroll.specs.declared.numbers.Naming.TheVariants as namings;
ghost use Rattle.apt_unroll.specs.Stages as stages;

use crate::calls::bindings;
use crate::places::Listing;
use apt_deeds::{bind_behind, deed_of};
use apt_scalar::{Env, Frame, eval};
use apt_words::{Args, Body, Case, Deed, Symbol};
use arrayvec::ArrayVec;
use std::alloc::{AllocError, Global};
use std::default::MadeWith;
use std::marker::Model;

/// An open call: where its macro returns to, and what the macro's parameters stand for.
#[derive(Drop)]
pub(crate) struct Call {
    back: usize,
    frame: Frame,
}

impl Model for Call {
    ghost use Rattle.apt_unroll.specs.Stages.{Call as Opened};

    ghost Value = { Opened };

    ghost view = { λ c. record { back = c.back; bound = c.frame } };
}

/// A blank of the call stack.
impl MadeWith<Global> for Call {
    ghost use Rattle.std.specs.Prelude.{◌≡◌, []};

    ghost is_made_with = { λ c. c.bound ≡ [] };

    fn made_with(alloc: Global) -> Call {
        Call {
            back: 0,
            frame: Frame {
                bound: Vec::new(alloc),
            },
        }
    }
}

/// Where a run stands. Clauses see a stage.
#[derive(Drop)]
pub(crate) struct Run {
    at: usize,
    ended: bool,
    env: Env,
    /// The innermost stands last.
    calls: ArrayVec<Call, 8, Global>,
    /// The parameters outside of macros: none.
    outside: Frame,
}

impl Model for Run {
    ghost use Rattle.std.specs.Prelude.{◌≡◌, [], reverse};
    ghost use Rattle.apt_unroll.specs.Stages.{Stage};

    ghost Value = { Stage };

    ghost view = { λ r. record { at = r.at; ended = r.ended; names = r.env; calls = reverse r.calls.items } };

    ghost invariant = { λ r. r.outside ≡ [] };
}

impl Run {
    pub(crate) fn new(alloc: Global) -> Run
        ensures { result ≡ stages.first_stage }
    {
        Run {
            at: 0,
            ended: false,
            env: Env::new(alloc),
            calls: ArrayVec::new_in(alloc),
            outside: Frame {
                bound: Vec::new(alloc),
            },
        }
    }

    /// The number of the statement to which it has come.
    pub(crate) fn at(&self) -> usize
        ensures { result ≡ self.now.at }
    {
        self.at
    }

    pub(crate) fn has_ended(&self) -> bool
        ensures { result ≡ self.now.ended }
    {
        self.ended
    }

    /// The parameters of the running macro.
    fn frame(&self) -> &Frame
        ensures { result.now ≡ stages.parameters self.now.calls }
    {
        match self.calls.as_slice().last() {
            Some(call) => &call.frame,
            None => &self.outside,
        }
    }

    /// What a statement does, or its first refusal.
    pub(crate) fn deed(&self, body: &Body) -> Result<Result<Deed, Case>, AllocError>
        ensures { IfOk result (λ deed. deed ≡ defining.deed_of self.now.names (stages.parameters self.now.calls) body.now) }
    {
        deed_of(&self.env, self.frame(), body)
    }

    /// What a statement that turns the flow does, and where the run goes on.
    #[tactic(auto, unfolding(crate::specs::Actions::action))]
    pub(crate) fn act(
        &mut self,
        alloc: Global,
        listing: &Listing,
        i: usize,
        body: &Body,
    ) -> Result<Result<Deed, Case>, AllocError>
        requires made { listing.now.made ≡ true }
        requires small { i < 2 ^ 63 }
        requires passed { begins_macro (flow_of body.now) ≡ false }
        requires turned { goes_on (flow_of body.now) ≡ false }
        requires lasting { is_fini body.now ≡ false }
        ensures { IfOk result (λ r. IsActed (action listing.now.stmts self.old i body.now (flow_of body.now)) r self.new) }
    {
        match body {
            Body::Termac => Ok(self.go_back()),
            Body::Call(name, args) => self.call(alloc, listing, i, name, args),
            Body::Loopst => Ok(self.jump_to(Some(i + 1), Deed::Loopst)),
            Body::Loopnd => Ok(self.jump_to(Some(i + 1), Deed::Loopnd)),
            Body::Jumpto(label) => Ok(self.jump_to(listing.target(i, label), Deed::Jumpto)),
            Body::If(e, below, zero, above) => match eval(e, &self.env, self.frame()) {
                Err(case) => Ok(Err(case)),
                Ok(v) => {
                    let label = label_by(v, below, zero, above);
                    Ok(self.jump_to(listing.target(i, label), Deed::If))
                }
            },
            // The statement leads elsewhere.
            _ => unreachable!(),
        }
    }

    /// Goes on with the following statement.
    pub(crate) fn go_on(&mut self, alloc: Global, i: usize, deed: &Deed) -> Result<(), AllocError>
        requires { i < 2 ^ 63 }
        ensures { OnOk result (actions.go_on i self.old deed.now ≡ Ok (deed.now, Some self.new)) }
    {
        self.at = i + 1;
        self.ended = is_ended(self.ended, deed);
        bind_behind(alloc, &mut self.env, deed)
    }

    /// Goes on with the statement of a label.
    fn jump_to(&mut self, target: Option<usize>, deed: Deed) -> Result<Deed, Case>
        ensures { IsActed (actions.jump_to self.old deed target) result self.new }
    {
        let Some(target) = target else {
            return Err(Case::JumpOutside);
        };
        self.at = target;
        Ok(deed)
    }

    /// Returns behind the innermost call.
    fn go_back(&mut self) -> Result<Deed, Case>
        ensures { IsActed (actions.return self.old self.old.calls) result self.new }
    {
        let Some(call) = self.calls.pop() else {
            return Err(Case::JumpOutside);
        };
        self.at = call.back;
        Ok(Deed::Termac)
    }

    /// Calls a macro.
    fn call(
        &mut self,
        alloc: Global,
        listing: &Listing,
        i: usize,
        name: &Symbol,
        args: &Args,
    ) -> Result<Result<Deed, Case>, AllocError>
        requires made { listing.now.made ≡ true }
        requires small { i < 2 ^ 63 }
        ensures { IfOk result (λ r. IsActed (actions.call listing.now.stmts self.old i args.now (place_of namings.Macros listing.now.stmts name.now)) r self.new) }
    {
        let Some(begin) = listing.macro_named(name) else {
            return Ok(Err(Case::NoSuchMacro));
        };
        if self.calls.is_full() {
            return Ok(Err(Case::Depth));
        }
        let params = listing.parameters_at(begin);
        match bindings(alloc, &self.env, self.frame(), params, args)? {
            Err(case) => Ok(Err(case)),
            Ok(frame) => {
                self.calls.push(Call { back: i + 1, frame });
                self.at = begin + 1;
                Ok(Ok(Deed::Call))
            }
        }
    }
}

/// The first label for a value below zero, the second for zero, the third above.
fn label_by<'a>(v: i64, below: &'a Symbol, zero: &'a Symbol, above: &'a Symbol) -> &'a Symbol
    ensures { result.now ≡ actions.label_by v below.now zero.now above.now }
{
    if v < 0 {
        below
    } else if v == 0 {
        zero
    } else {
        above
    }
}

/// Whether the program has ended behind a step.
fn is_ended(before: bool, deed: &Deed) -> bool
    ensures { result ≡ endings.is_ended before deed.now }
{
    before || matches!(deed, Deed::EndWord)
}
