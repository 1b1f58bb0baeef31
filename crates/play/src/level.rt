ghost use Rattle.std.specs.Prelude.{◌≡◌};
ghost use Rattle.judge.specs.Comparing.{meant};
ghost use Rattle.play.specs.Calls.{Begins, Challenges};

use crate::challenged::Challenged;
use crate::fault::{Fault, Refused};
use crate::present::find_step;
use judge::comparison::Comparison;
use judge::verdict::Pass;
use questions::Side;
use systems::System;

/// A play that waits for a challenge, at a record of the relation.
// Not `Copy`: a play goes on by being moved, so a call that comes out of turn does not compile.
#[derive(Drop, Debug)]
pub struct Level {
    pub(crate) pair: usize,
}

impl Level {
    /// A level play at the pair with that number, if it is below the pass's count.
    pub fn begin(pass: &Pass, pair: usize) -> Result<Level, Fault>
        ensures { Begins pass.now pair result }
    {
        if pair < pass.count() {
            Ok(Level { pair })
        } else {
            Err(Fault::NoPair)
        }
    }

    /// The number of the record at which the play is.
    pub fn pair(&self) -> usize
        ensures { result ≡ self.now.pair }
    {
        self.pair
    }

    /// Names a step of the side's state of the present pair. A second challenge before the first is settled does not
    /// compile: settle first.
    pub fn challenge<L: System, R: System>(
        self,
        comparison: &Comparison<'_, L, R>,
        side: Side,
        step: u64,
    ) -> Result<Challenged, Refused<Level>>
        ensures { Challenges (meant L.System.means R.System.means comparison.now) self side step result }
    {
        match find_step(comparison, self.pair, side, step) {
            Ok(_) => Ok(Challenged {
                pair: self.pair,
                side,
                step,
            }),
            Err(fault) => Err(Refused { play: self, fault }),
        }
    }
}
