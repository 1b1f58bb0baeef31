ghost use Rattle.judge.specs.Comparing.{meant};
ghost use Rattle.judge.specs.Likeness.{Bisimulation};
ghost use Rattle.std.specs.Prelude.{◌≡◌};
ghost use Rattle.rehearsal.specs.Making.{after_taken, after_refused, KeepsBook};

use crate::attempt::{Call, Outcome};
use crate::playing::Play;
use judge::comparison::Comparison;
use play::fault::{Fault, Refused};
use systems::System;

/// A play after a call, and how the call went.
#[derive(Drop)]
pub(crate) struct AfterCall {
    pub(crate) play: Play,
    pub(crate) outcome: Outcome,
}

fn taken(play: Play) -> AfterCall
    ensures { result ≡ after_taken play }
{
    AfterCall {
        play,
        outcome: Outcome::Taken,
    }
}

fn refused(play: Play, fault: Fault) -> AfterCall
    ensures { result ≡ after_refused play fault }
{
    AfterCall {
        play,
        outcome: Outcome::Refused(fault),
    }
}

impl Play {
    /// Makes a call, if the play waits for it.
    pub(crate) fn make<L: System, R: System>(
        self,
        comparison: &Comparison<'_, L, R>,
        call: Call,
    ) -> AfterCall
        ensures { Bisimulation (meant L.System.means R.System.means comparison.now) → KeepsBook (meant L.System.means R.System.means comparison.now) self call result }
    {
        match (self, call) {
            (Play::Level(play), Call::Challenge { side, step }) => {
                match play.challenge(comparison, side, step) {
                    Ok(next) => taken(Play::Challenged(next)),
                    Err(Refused { play, fault }) => refused(Play::Level(play), fault),
                }
            }
            (Play::Challenged(play), Call::Reply) => match play.reply(comparison) {
                Ok(next) => taken(Play::Answered(next)),
                Err(Refused { play, fault }) => refused(Play::Challenged(play), fault),
            },
            (Play::Answered(play), Call::Settle { value }) => {
                match play.settle(comparison, value) {
                    Ok(next) => taken(Play::Level(next)),
                    Err(Refused { play, fault }) => refused(Play::Answered(play), fault),
                }
            }
            (play, _) => AfterCall {
                play,
                outcome: Outcome::OutOfTurn,
            },
        }
    }
}
