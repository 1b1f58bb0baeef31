// The law of judge, play and runs, for networks under any two rules: with it goes that their steps are exactly those of the
// calculus.
#![tactic(auto)]

ghost use Rattle.rehearsal.specs.Law.{Law};
ghost use Rattle.judge.specs.Comparing.{comparing};
ghost use Rattle.network_rehearsal.specs.Exact.{ruled, ExactSteps};

use judge::comparison::Comparison;
use network::network::Network;
use rehearsal::attempt::Attempt;
use rehearsal::fault::RehearsalFault;
use rehearsal::playing::Play;
use rehearsal::rehearse::rehearse;
use rules::rule::Rule;
use std::alloc::Global;

#[cfg(test)]
mod tests;

/// A rehearsal between two networks, each under a rule of its own kind.
pub fn rehearse_networks<P: Rule, Q: Rule>(
    heap: Global,
    comparison: &Comparison<'_, Network<P>, Network<Q>>,
    pair: usize,
    attempts: &mut [Attempt],
) -> Result<Play, RehearsalFault>
    ensures law { Law (comparing (ruled P.Rule.allowed comparison.now.left.now.table comparison.now.left.now.rule) (ruled Q.Rule.allowed comparison.now.right.now.table comparison.now.right.now.rule) comparison.now.relation.now) pair attempts.old attempts.new result }
    ensures left_exact { ExactSteps P.Rule.allowed comparison.now.left.now.table comparison.now.left.now.rule }
    ensures right_exact { ExactSteps Q.Rule.allowed comparison.now.right.now.table comparison.now.right.now.rule }
{
    rehearse(heap, comparison, pair, attempts)
}
