// A play between two sheets, move by move in words.
use crate::sheets_part::{FOUR_ROWS, worked_sheet};
use judge::comparison::Comparison;
use judge::verdict::judge;
use model::state::Pair;
use model::value::Value;
use play::fault::Refused;
use play::level::Level;
use questions::Side;
use sheet::states::state_at;
use systems::System;

fn name(side: Side) -> &'static str {
    match side {
        Side::Left => "left",
        Side::Right => "right",
    }
}

/// One round: a challenge, its reply, and the value that settles where both land. A challenge that is refused leaves the play
/// where it is.
fn show_round<L: System, R: System>(
    rt: &HostRuntime,
    comparison: &Comparison<'_, L, R>,
    play: Level,
    side: Side,
    step: u64,
    value: Value,
) -> anyhow::Result<Level> {
    let challenger = name(side);
    print!(rt; "  the {challenger} side challenges with step {step}")?;
    let challenged = match play.challenge(comparison, side, step) {
        Ok(challenged) => challenged,
        Err(Refused { play, fault }) => {
            println!(rt; ": refused, {fault}")?;
            return Ok(play);
        }
    };
    let answered = challenged
        .reply(comparison)
        .map_err(|refused| refused.fault)?;
    let reply = answered.reply_step();
    print!(rt; ", the other replies with step {reply}")?;
    let level = answered.settle(comparison, value)?;
    let pair = level.pair();
    println!(rt; ", {value} is told, and they land at pair {pair}")?;
    Ok(level)
}

fn alike(number: u8) -> Pair {
    Pair {
        left: state_at(number),
        right: state_at(number),
    }
}

pub fn show_play(rt: &HostRuntime) -> anyhow::Result<()> {
    let sheet = worked_sheet(&FOUR_ROWS)?;
    let relation = [alike(0), alike(1), alike(2)];
    let comparison = Comparison {
        left: &sheet,
        right: &sheet,
        relation: &relation,
    };
    let pass = judge(rt.alloc(), &sheet, &sheet, &relation)?;
    println!(rt; "a receive whose landing depends on the value, from pair 0")?;
    let play = Level::begin(&pass, 0)?;
    show_round(rt, &comparison, play, Side::Left, 2, 1)?;
    println!(rt;
        "the same with another value, and then a broadcast, which lands alike whatever is told"
    )?;
    let play = Level::begin(&pass, 0)?;
    let play = show_round(rt, &comparison, play, Side::Left, 2, 0)?;
    let play = show_round(rt, &comparison, play, Side::Right, 0, 100)?;
    show_round(rt, &comparison, play, Side::Right, 0, 0)?;
    let refused = Level::begin(&pass, 3).err();
    if let Some(fault) = refused {
        println!(rt; "a play from pair 3: refused, {fault}")?;
    }
    Ok(())
}
