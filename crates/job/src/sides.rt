// One side of an input: its questions are put as its range, its rule and its network are loaded.
ghost use Rattle.std.specs.Prelude.{◌≡◌, ◌<◌, length, IfOk, MatchResult};
ghost use Rattle.questions.specs.Asking.{first_no, refusal_of};
ghost use Rattle.frames.specs.Payloads.{side_bytes, setting_of};
ghost use Rattle.frames.specs.declared.kind.Kind.TheVariants.{Row as Rows, Link as LinkRecords};
ghost use Rattle.rules.specs.Faults.{rule_refusal};
ghost use Rattle.rules.specs.LinkRules.{meets, links_allow, links_asked, links_of};
ghost use Rattle.tables.specs.declared.TableFault.TheVariants.{Count};
ghost use Rattle.ways.specs.Nets.{net_of};
ghost use Rattle.network.specs.Loads.{network_asked, network_refusal, net_in};
ghost use Rattle.job.specs.Faults.{side_refusal, job_refusal};
ghost use Rattle.job.specs.Sides.{tables_asked, side_asked, loaded_meaning, side_meaning};

use crate::fault::{JobFault, SideFault};
use arrayvec::ArrayVec;
use frames::gather::{ROOM, payload_bytes, setting};
use frames::kind::Kind;
use model::group_set::GroupSet;
use model::placement::UnitCount;
use model::range::Range;
use network::fault::NetworkFault;
use network::network::Network;
use questions::Side;
use rules::both::Both;
use rules::fault::RuleFault;
use rules::links::Links;
use rules::tuner::Tuner;
use tables::TableFault;

/// The records of one side of an input.
#[derive(Clone, Copy)]
pub(crate) struct Records<'a> {
    pub(crate) bytes: &'a [u8],
    pub(crate) side: Side,
}

impl Records<'_> {
    /// The payloads of the side's records of one kind. More bytes than there is room for are more records than a table has.
    fn payloads(&self, kind: Kind) -> Result<ArrayVec<u8, ROOM>, TableFault>
        ensures { MatchResult result (λ v. v.items ≡ side_bytes kind self.now.side self.now.bytes.now) (λ e. (e ≡ Count) × (1024 < length (side_bytes kind self.now.side self.now.bytes.now))) }
    {
        payload_bytes(self.bytes, kind, self.side).ok_or(TableFault::Count)
    }

    /// The links: questions 2 and 3.
    fn load_links(&self) -> Result<Links, RuleFault>
        ensures refuses { refusal_of rule_refusal result ≡ first_no (links_asked (side_bytes LinkRecords self.now.side self.now.bytes.now)) }
        ensures means { IfOk result (λ x. links_allow x ≡ meets (links_of (side_bytes LinkRecords self.now.side self.now.bytes.now))) }
    {
        let links = self.payloads(Kind::Link)?;
        Links::load(links.as_slice())
    }

    /// The network under the rule: questions 5, 6 and 7.
    fn load_network(
        &self,
        range: Range,
        free: GroupSet,
        units: usize,
        rule: Both<Links, Tuner>,
    ) -> Result<Network<Both<Links, Tuner>>, NetworkFault>
        ensures refuses { refusal_of network_refusal result ≡ first_no (network_asked range.lo range.hi units (side_bytes Rows self.now.side self.now.bytes.now)) }
        ensures table { IfOk result (λ n. net_of n.table ≡ net_in range.lo range.hi free units (side_bytes Rows self.now.side self.now.bytes.now)) }
        ensures rule { IfOk result (λ n. n.rule ≡ rule) }
    {
        // before the rows are gathered, since there may be more of them than there is room for
        UnitCount::new(units)?;
        let rows = self.payloads(Kind::Row)?;
        Network::load(range, free, units, rows.as_slice(), rule)
    }

    fn load_tables(&self) -> Result<Network<Both<Links, Tuner>>, SideFault>
        ensures refuses { refusal_of side_refusal result ≡ first_no (tables_asked (setting_of self.now.side self.now.bytes.now) (side_bytes LinkRecords self.now.side self.now.bytes.now) (side_bytes Rows self.now.side self.now.bytes.now)) }
        ensures means { IfOk result (λ n. loaded_meaning n.table n.rule ≡ side_meaning self.now.side self.now.bytes.now) }
    {
        let setting = setting(self.bytes, self.side);
        let range = Range::new(setting.lo, setting.hi)?;
        let links = self.load_links()?;
        let tuner = Tuner::new(setting.limit)?;
        let rule = Both {
            one: links,
            other: tuner,
        };
        Ok(self.load_network(range, setting.free, setting.units, rule)?)
    }

    /// The network that the side's records describe, or the first no, told with the side.
    pub(crate) fn load(&self) -> Result<Network<Both<Links, Tuner>>, JobFault>
        ensures refuses { refusal_of job_refusal result ≡ first_no (side_asked self.now.side self.now.bytes.now) }
        ensures means { IfOk result (λ n. loaded_meaning n.table n.rule ≡ side_meaning self.now.side self.now.bytes.now) }
    {
        let side = self.side;
        self.load_tables()
            .map_err(|fault| JobFault::BadSide { side, fault })
    }
}
