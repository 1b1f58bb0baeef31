// The steps of a network are those that the rules of the calculus derive. The rules stand in specs/Calculus.antt, and the
// theorem in specs/Exactness.antt.
#![tactic(auto)]

ghost use Rattle.std.specs.Prelude.{◌≡◌, true};
ghost use Rattle.std.specs.List.{slice_get};
ghost use Rattle.ways.specs.Nets.{net_of};
ghost use Rattle.network.specs.Meanings.{lawful, lawful_ways, network_meaning};
ghost use Rattle.calculus.specs.Exactness.{StepsExact, Exact};
ghost use Rattle.calculus.specs.Lawfulness.{LandsLawfully};

use model::state::State;
use network::network::Network;
use rules::rule::Rule;
use ways::way::Way;

/// The theorem, of every network, every rule and every lawful state. There is nothing to compute.
pub fn steps_are_exact()
    ensures { StepsExact }
{}

/// The way with this number among the ways of the steps of a state, which are just the ways that the calculus derives.
pub fn derivable_way<R: Rule>(network: &Network<R>, state: &State, number: usize) -> Option<Way>
    ensures is { result ≡ slice_get (lawful_ways (net_of network.now.table) (R.Rule.allowed network.now.rule) state.now) number }
    ensures exact { lawful (net_of network.now.table) (R.Rule.allowed network.now.rule) state.now ≡ true → Exact (net_of network.now.table) (R.Rule.allowed network.now.rule) state.now }
{
    // The read shows the proof that a state has six slots.
    let _first = state.units[0];
    network.way(state, number)
}

/// A step of this network from a lawful state lands in lawful states. There is nothing to compute.
pub fn landings_are_lawful<R: Rule>(network: &Network<R>)
    ensures { LandsLawfully (network_meaning (net_of network.now.table) (R.Rule.allowed network.now.rule)) }
{
    let _units = network.table().units();
}
