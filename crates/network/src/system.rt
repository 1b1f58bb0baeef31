ghost use Rattle.std.specs.Prelude.{◌≡◌, ◌++◌, true, cond, map, Decides, OnOk, OnErr, None};
ghost use Rattle.std.specs.List.{slice_get};
ghost use Rattle.lists.specs.Words.{through, Extends};
ghost use Rattle.model.specs.Ranges.{in_range};
ghost use Rattle.ways.specs.Landings.{landing_of, listed_of};
ghost use Rattle.ways.specs.Nets.{net_of};
ghost use Rattle.ways.specs.Receivings.{received_by};
ghost use Rattle.network.specs.Meanings.{lawful, Lawful, Shows, ways, lawful_ways, network_meaning};
ghost use Rattle.network.specs.Steps;

use crate::lawful::union_shown;
use crate::network::Network;
use model::group_set::GroupSet;
use model::label::Label;
use model::range::Range;
use model::state::State;
use model::value::Value;
use rules::rule::Rule;
use std::alloc::AllocError;
use systems::System;
use systems::listed::Listed;
use ways::receiving::Receiving;
use ways::way::Way;

impl<R: Rule> Network<R> {
    fn any_way(&self, state: &State, number: usize) -> Option<Way>
        requires { lawful (net_of self.now.table) (R.Rule.allowed self.now.rule) state.now ≡ true }
        ensures { result ≡ slice_get (ways (net_of self.now.table) (R.Rule.allowed self.now.rule) state.now) number }
    {
        let movements = self.movement_count(state);
        if number < movements {
            self.movement(state, number)
        } else {
            self.table.act(state, number - movements)
        }
    }

    /// The way of the step with this number.
    pub fn way(&self, state: &State, number: usize) -> Option<Way>
        ensures { result ≡ slice_get (lawful_ways (net_of self.now.table) (R.Rule.allowed self.now.rule) state.now) number }
    {
        // A `then` would give an `Option` of an `Option`.
        if self.is_state_lawful(state) {
            self.any_way(state, number)
        } else {
            None
        }
    }

    /// Adds the steps of a lawful state, as they are listed at the value.
    fn add_steps(
        &self,
        state: &State,
        value: Value,
        steps: &mut Vec<Listed>,
    ) -> Result<(), AllocError>
        requires { lawful (net_of self.now.table) (R.Rule.allowed self.now.rule) state.now ≡ true }
        ensures adds { OnOk result (steps.new.items ≡ steps.old.items ++ map (listed_of (net_of self.now.table) state.now value) (ways (net_of self.now.table) (R.Rule.allowed self.now.rule) state.now)) }
        ensures begins { OnErr result (Extends steps.old.items steps.new.items) }
    {
        self.add_movements(state, value, steps)?;
        self.table.add_acts(state, value, steps)
    }

    /// Where the step with this number lands at a value; none where there is no such step, or the value is out of range.
    fn landing_of(&self, state: &State, number: usize, value: Value) -> Option<State>
        ensures { result ≡ cond (in_range self.now.table.program.range.lo self.now.table.program.range.hi value) (through (λ x. landing_of (net_of self.now.table) state.now x value) (slice_get (lawful_ways (net_of self.now.table) (R.Rule.allowed self.now.rule) state.now) number)) None }
    {
        // before the way, which is looked for among all steps
        if !self.range().holds(value) {
            return None;
        }
        let way = self.way(state, number)?;
        Some(self.table.landing_of(state, &way, value))
    }
}

impl<R: Rule> System for Network<R> {
    type Receive = Receiving;

    ghost means = { λ n. network_meaning (net_of n.table) (R.Rule.allowed n.rule) };

    ghost receive_by = { λ n s r. received_by (net_of n.table) s r };

    ghost keeps = { λ x. Steps.keeps (net_of x.table) (R.Rule.allowed x.rule) x.table.program.range.ordered };

    fn range(&self) -> Range {
        self.table.program().range()
    }

    fn is_lawful(&self, state: &State) -> bool
        ensures is { result ≡ (network_meaning (net_of self.now.table) (R.Rule.allowed self.now.rule)).lawful state.now }
        ensures words { Decides result (Lawful (net_of self.now.table) (R.Rule.allowed self.now.rule) state.now) }
    {
        self.is_state_lawful(state)
    }

    fn shown(&self, state: &State) -> GroupSet
        ensures is { result ≡ (network_meaning (net_of self.now.table) (R.Rule.allowed self.now.rule)).shown state.now }
        ensures groups { let n = net_of self.now.table in lawful n (R.Rule.allowed self.now.rule) state.now ≡ true → Shows n state.now result }
    {
        if self.is_state_lawful(state) {
            union_shown(&self.table, state)
        } else {
            GroupSet::default()
        }
    }

    // Step numbers have 64 bits, and the library counts in `usize`.
    fn step_count(&self, state: &State) -> u64 {
        if self.is_state_lawful(state) {
            (self.movement_count(state) + self.table.act_count(state)) as u64
        } else {
            0
        }
    }

    fn label(&self, state: &State, step: u64) -> Option<Label> {
        self.way(state, step as usize)
            .map(|way| self.table.label_of(state, &way))
    }

    fn landing(&self, state: &State, step: u64, value: Value) -> Option<State> {
        self.landing_of(state, step as usize, value)
    }

    // Whether the state is lawful is asked once for all steps.
    fn list(&self, state: &State, value: Value, steps: &mut Vec<Listed>) -> Result<(), AllocError> {
        if !self.is_state_lawful(state) {
            return Ok(());
        }
        let before = steps.len();
        let added = self.add_steps(state, value, steps);
        if added.is_err() {
            steps.truncate(before);
        }
        added
    }

    fn receives(&self, state: &State, receives: &mut Vec<Receiving>) -> Result<(), AllocError> {
        if self.is_state_lawful(state) {
            self.table.add_receivings(state, receives)
        } else {
            Ok(())
        }
    }

    fn landing_by(&self, state: &State, receive: &Receiving, value: Value) -> Option<State> {
        self.table.received(state, receive, value)
    }
}
