ghost use Rattle.judge.specs.Comparing.{meant};
ghost use Rattle.rehearsal.specs.Law.{Law};

use crate::attempt::Attempt;
use crate::fault::RehearsalFault;
use crate::playing::Play;
use judge::comparison::Comparison;
use judge::verdict::judge;
use play::level::Level;
use std::alloc::Global;
use systems::System;

/// Judges the relation, begins a play at the pair with that number, and makes the calls one after another, writing beside
/// each how it went, over what stood there. A call for which the play does not wait is not made. Where the relation is not
/// accepted or the pair is not there, no call is made and the attempts stay as they are.
pub fn rehearse<L: System, R: System>(
    heap: Global,
    comparison: &Comparison<'_, L, R>,
    pair: usize,
    attempts: &mut [Attempt],
) -> Result<Play, RehearsalFault>
    ensures { Law (meant L.System.means R.System.means comparison.now) pair attempts.old attempts.new result }
{
    let pass = judge(heap, comparison.left, comparison.right, comparison.relation)?;
    let mut play = Play::Level(Level::begin(&pass, pair)?);
    for attempt in attempts.iter_mut() {
        let made = play.make(comparison, attempt.call);
        play = made.play;
        attempt.outcome = Some(made.outcome);
    }
    Ok(play)
}
