ghost use Rattle.std.specs.Prelude.{◌≡◌, IfOk};
ghost use Rattle.questions.specs.Asking.{first_no, refusal_of};
ghost use Rattle.ways.specs.Nets.{net_of};
ghost use Rattle.network.specs.Loads.{network_asked, network_refusal, net_in};

use crate::fault::NetworkFault;
use crate::movement::admitted;
use crate::network::Network;
use model::group_set::GroupSet;
use model::placement::UnitCount;
use model::range::Range;
use rows::program::Program;
use rules::rule::Rule;
use ways::table::Table;

impl<R: Rule> Network<R> {
    /// The network of a range, the free groups, a count of units, the bytes of its rows and a rule, or a refusal with
    /// question 5, 6 or 7.
    pub fn load(
        range: Range,
        free: GroupSet,
        units: usize,
        rows: &[u8],
        rule: R,
    ) -> Result<Network<R>, NetworkFault>
    where
        R: Drop,
        ensures refuses { refusal_of network_refusal result ≡ first_no (network_asked range.lo range.hi units rows.now) }
        ensures table { IfOk result (λ n. net_of n.table ≡ net_in range.lo range.hi free units rows.now) }
        ensures rule { IfOk result (λ n. n.rule ≡ rule) }
    {
        let units = UnitCount::new(units)?;
        let program = Program::load(range, rows)?;
        let sets = admitted(&rule);
        Ok(Network {
            table: Table::new(free, units, program),
            rule,
            sets,
        })
    }

    /// Its units and the program that they follow.
    pub fn table(&self) -> &Table
        ensures { result.now ≡ self.now.table }
    {
        &self.table
    }

    /// The rule under which its units move.
    pub fn rule(&self) -> &R
        ensures { result.now ≡ self.now.rule }
    {
        &self.rule
    }
}
