ghost use Rattle.std.specs.Prelude.{◌≡◌};
ghost use Rattle.judge.specs.Comparing.{meant};
ghost use Rattle.play.specs.Calls.{Replies};

use crate::answered::Answered;
use crate::fault::{Fault, Refused};
use crate::present::find_step;
use judge::comparison::Comparison;
use questions::Side;
use systems::System;

/// A play that waits for the reply to a challenge.
#[derive(Drop, Debug)]
pub struct Challenged {
    pub(crate) pair: usize,
    pub(crate) side: Side,
    pub(crate) step: u64,
}

impl Challenged {
    /// The number of the record at which the play is.
    pub fn pair(&self) -> usize
        ensures { result ≡ self.now.pair }
    {
        self.pair
    }

    /// The side that challenges.
    pub fn side(&self) -> Side
        ensures { result ≡ self.now.side }
    {
        self.side
    }

    /// The number of the challenger's step.
    pub fn step(&self) -> u64
        ensures { result ≡ self.now.step }
    {
        self.step
    }

    /// Fixes the first reply in list order, before any value is told. A value told before the reply does not compile: call
    /// `reply` first.
    pub fn reply<L: System, R: System>(
        self,
        comparison: &Comparison<'_, L, R>,
    ) -> Result<Answered, Refused<Challenged>>
        ensures { Replies (meant L.System.means R.System.means comparison.now) self result }
    {
        let pair = match find_step(comparison, self.pair, self.side, self.step) {
            Ok(held) => held.pair,
            Err(fault) => return Err(Refused { play: self, fault }),
        };
        match comparison.first_reply(self.side, pair, self.step) {
            Some(reply) => Ok(Answered {
                pair: self.pair,
                side: self.side,
                step: self.step,
                reply,
            }),
            None => Err(Refused {
                play: self,
                fault: Fault::NoReply,
            }),
        }
    }
}
