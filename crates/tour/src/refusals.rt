use model::group_set::GroupSet;
use model::placement::Placement;
use model::range::Range;
use questions::Refusal;
use rules::fault::RuleFault;
use rules::links::Links;
use rules::parking::Parking;
use rules::tuner::Tuner;

fn show(rt: &HostRuntime, what: &str, refusal: Option<Refusal>) -> anyhow::Result<()> {
    match refusal {
        None => println!(rt; "{what}: accepted")?,
        Some(
            Refusal {
                question: 3,
                side: _,
                item,
                step: _,
            },
        ) => println!(rt; "{what}: no to question 3, record {item}")?,
        Some(
            Refusal {
                question,
                side: _,
                item: _,
                step: _,
            },
        ) => println!(rt; "{what}: no to question {question}")?,
    }
    Ok(())
}

fn refusal_of<T: Drop>(made: Result<T, RuleFault>) -> Option<Refusal> {
    made.err().map(|fault| fault.refusal())
}

fn refusal_of_range(lo: i8, hi: i8) -> Option<Refusal> {
    Range::new(lo, hi).err().map(|fault| fault.refusal())
}

fn refusal_of_placement(units: usize) -> Option<Refusal> {
    Placement::new(units, [GroupSet::default(); 6])
        .err()
        .map(|fault| fault.refusal())
}

fn refusal_of_parking(bytes: &[u8]) -> Option<Refusal> {
    refusal_of(Parking::load(bytes))
}

fn refusal_of_links(bytes: &[u8]) -> Option<Refusal> {
    refusal_of(Links::load(bytes))
}

pub fn show_refusals(rt: &HostRuntime) -> anyhow::Result<()> {
    show(rt, "range from -2 to 2", refusal_of_range(-2, 2))?;
    show(rt, "range from 2 to -2", refusal_of_range(2, -2))?;
    show(rt, "placement of 6 units", refusal_of_placement(6))?;
    show(rt, "placement of 7 units", refusal_of_placement(7))?;
    show(rt, "placement of 0 units", refusal_of_placement(0))?;
    show(rt, "parking, no record", refusal_of_parking(&[]))?;
    show(rt, "parking, 48 records", refusal_of_parking(&[0; 96]))?;
    show(rt, "parking, 49 records", refusal_of_parking(&[0; 98]))?;
    show(rt, "parking, 3 bytes", refusal_of_parking(&[0, 1, 0]))?;
    show(
        rt,
        "parking, unit 6 in record 1",
        refusal_of_parking(&[0, 1, 6, 1]),
    )?;
    show(rt, "links, 16 records", refusal_of_links(&[1; 48]))?;
    show(rt, "links, 17 records", refusal_of_links(&[1; 51]))?;
    show(
        rt,
        "links, kind 3 in record 0",
        refusal_of_links(&[3, 0, 1]),
    )?;
    show(
        rt,
        "links, unit 6 in record 2",
        refusal_of_links(&[1, 0, 1, 2, 0, 2, 1, 0, 6]),
    )?;
    show(rt, "tuner with limit 8", refusal_of(Tuner::new(8)))?;
    show(rt, "tuner with limit 9", refusal_of(Tuner::new(9)))
}
