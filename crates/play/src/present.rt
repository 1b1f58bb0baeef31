ghost use Rattle.std.specs.Prelude.{◌≡◌, [], Some, IfOk};
ghost use Rattle.questions.specs.Asking.{first_no, refusal_of};
ghost use Rattle.lists.specs.Words.{Stands};
ghost use Rattle.judge.specs.Comparing.{meant, label_on};
ghost use Rattle.play.specs.Calls.{present_asked, challenge_asked, play_refusal};

use crate::fault::Fault;
use judge::comparison::Comparison;
use judge::verdict::MOST;
use model::label::Label;
use model::state::Pair;
use questions::Side;
use systems::System;

/// Puts 10, 11 and 17: the record with that number, in a relation between systems of one range.
fn present_record<'a, L: System, R: System>(
    comparison: &Comparison<'a, L, R>,
    number: usize,
) -> Result<&'a Pair, Fault>
    ensures refuses { refusal_of play_refusal result ≡ first_no (present_asked (meant L.System.means R.System.means comparison.now) number (λ _. [])) }
    ensures stands { IfOk result (λ pair. Stands comparison.now.relation.now pair.now number) }
{
    comparison.aligned().ok_or(Fault::Ranges)?;
    if comparison.relation.len() > MOST {
        return Err(Fault::TooMany);
    }
    comparison.relation.get(number).ok_or(Fault::NoPair)
}

/// A step of a side's state of the present pair, and its label.
#[derive(Drop)]
pub(crate) struct Held<'a> {
    pub(crate) pair: &'a Pair,
    pub(crate) label: Label,
}

/// The step with that number of the side's state of the present pair.
pub(crate) fn find_step<'a, L: System, R: System>(
    comparison: &Comparison<'a, L, R>,
    number: usize,
    side: Side,
    step: u64,
) -> Result<Held<'a>, Fault>
    ensures refuses { refusal_of play_refusal result ≡ first_no (challenge_asked (meant L.System.means R.System.means comparison.now) number side step) }
    ensures stands { IfOk result (λ held. Stands comparison.now.relation.now held.pair.now number) }
    ensures labeled { IfOk result (λ held. label_on side (meant L.System.means R.System.means comparison.now) held.pair.now step ≡ Some held.label) }
{
    let pair = present_record(comparison, number)?;
    let label = comparison.label(side, pair, step).ok_or(Fault::NoStep)?;
    Ok(Held { pair, label })
}
