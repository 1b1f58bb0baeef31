ghost use Rattle.std.specs.Prelude.{◌≡◌, [], IfOk};
ghost use Rattle.lists.specs.Words.{Stands};
ghost use Rattle.questions.specs.Asking.{first_no, refusal_of};
ghost use Rattle.judge.specs.Comparing.{meant};
ghost use Rattle.play.specs.Calls.{ValueFor, OfSteps, FirstLanding, value_by, told_asked, play_refusal, Settles};

use crate::fault::{Fault, Refused};
use crate::level::Level;
use crate::present::find_step;
use judge::comparison::{Comparison, opposite, pair_from};
use lookup::first_equal;
use model::label::Label;
use model::range::Range;
use model::state::Pair;
use model::value::Value;
use questions::Side;
use systems::System;

/// A play that waits for a value, which settles where the challenger's step and its reply land.
#[derive(Drop, Debug)]
pub struct Answered {
    pub(crate) pair: usize,
    pub(crate) side: Side,
    pub(crate) step: u64,
    pub(crate) reply: u64,
}

/// The present pair, and the value by which both held steps land.
#[derive(Clone, Copy)]
struct Told<'a> {
    pair: &'a Pair,
    value: Value,
}

/// The value by which a step with that label lands: the one told for a receive, if it is in range, and else the lowest.
fn value_for(label: &Label, range: &Range, told: Value) -> Option<Value>
    ensures { ValueFor label.now range.now told result }
{
    match *label {
        Label::Receive { .. } => range.holds(told).then_some(told),
        _ => Some(range.lo()),
    }
}

impl Answered {
    /// The number of the record at which the play is.
    pub fn pair(&self) -> usize
        ensures { result ≡ self.now.pair }
    {
        self.pair
    }

    /// The side that challenges.
    pub fn side(&self) -> Side
        ensures { result ≡ self.now.side }
    {
        self.side
    }

    /// The number of the challenger's step.
    pub fn step(&self) -> u64
        ensures { result ≡ self.now.step }
    {
        self.step
    }

    /// The number of the step that is the reply.
    pub fn reply_step(&self) -> u64
        ensures { result ≡ self.now.reply }
    {
        self.reply
    }

    /// The present pair, and the value by which the held steps land when `value` is told.
    fn find_told<'a, L: System, R: System>(
        &self,
        comparison: &Comparison<'a, L, R>,
        value: Value,
    ) -> Result<Told<'a>, Fault>
        ensures refuses { refusal_of play_refusal result ≡ first_no (told_asked (meant L.System.means R.System.means comparison.now) self.now value (λ _ _. [])) }
        ensures stands { IfOk result (λ told. Stands comparison.now.relation.now told.pair.now self.now.pair) }
        ensures value { IfOk result (λ told. OfSteps (meant L.System.means R.System.means comparison.now) self.now (λ x _. told.value ≡ value_by (meant L.System.means R.System.means comparison.now) x.label value)) }
    {
        let held = find_step(comparison, self.pair, self.side, self.step)?;
        let pair = held.pair;
        if comparison
            .label(opposite(self.side), pair, self.reply)
            .is_none()
        {
            return Err(Fault::NoStep);
        }
        let value = value_for(&held.label, &comparison.left.range(), value).ok_or(Fault::Value)?;
        Ok(Told { pair, value })
    }

    /// The number of the first record equal to both landings; none if a step does not land or no record is equal.
    fn first_landing<L: System, R: System>(
        &self,
        comparison: &Comparison<'_, L, R>,
        told: &Told<'_>,
    ) -> Option<usize>
        ensures { FirstLanding (meant L.System.means R.System.means comparison.now) self.now told.now.pair.now told.now.value result }
    {
        let Told { pair, value } = *told;
        let own = comparison.landing(self.side, pair, self.step, value)?;
        let other = comparison.landing(opposite(self.side), pair, self.reply, value)?;
        let landings = pair_from(self.side, own, other);
        first_equal(comparison.relation, &landings)
    }

    /// Takes a value, or the lowest one where the challenger's step is no receive, and gives a level play at the first record
    /// equal to both landings.
    pub fn settle<L: System, R: System>(
        self,
        comparison: &Comparison<'_, L, R>,
        value: Value,
    ) -> Result<Level, Refused<Answered>>
        ensures { Settles (meant L.System.means R.System.means comparison.now) self value result }
    {
        let told = match self.find_told(comparison, value) {
            Ok(told) => told,
            Err(fault) => return Err(Refused { play: self, fault }),
        };
        let Some(pair) = self.first_landing(comparison, &told) else {
            return Err(Refused {
                play: self,
                fault: Fault::Landings,
            });
        };
        Ok(Level { pair })
    }
}
