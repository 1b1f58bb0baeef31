// A tour of the libraries: what was asked of each, and what it answered.
#![tactic(auto)]

mod judge_part;
mod networks_part;
mod play_part;
mod refusals;
mod rules_part;
mod sheets_part;
mod steps_part;

fn main(rt: HostRuntime) -> anyhow::Result<()> {
    println!(rt; "Mobility rules")?;
    rules_part::show_rules(&rt)?;
    println!(rt)?;
    println!(rt; "Rules, ranges and placements that are refused")?;
    refusals::show_refusals(&rt)?;
    println!(rt)?;
    println!(rt; "A service sheet: location of unit 0 is the state's number")?;
    sheets_part::show_sheets(&rt)?;
    println!(rt)?;
    println!(rt; "Networks over the range -2 to 2, with the free group 0")?;
    networks_part::show_networks(&rt)?;
    println!(rt)?;
    println!(rt; "The judge")?;
    networks_part::show_judged(&rt)?;
    judge_part::show_judge(&rt)?;
    println!(rt)?;
    println!(rt; "A play between the sheet of four rows and itself")?;
    play_part::show_play(&rt)
}
