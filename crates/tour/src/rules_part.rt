use model::group_set::GroupSet;
use model::placement::Placement;
use rules::both::Both;
use rules::links::Links;
use rules::parking::Parking;
use rules::rule::Rule;
use rules::tuner::Tuner;

// The rows stand in each part of the tour, where the example is read.
// Unit 0 may park on {0} and on {0, 1}, unit 1 on {0} and on {2}, unit 2 on {3}.
const PLACES: [u8; 10] = [0, 1, 0, 3, 1, 1, 1, 4, 2, 8];

// Units 0 and 1 are joined, and units 0 and 2 apart.
const JOINED_AND_APART: [u8; 6] = [1, 0, 1, 2, 0, 2];

const JOINED: [u8; 3] = [1, 0, 1];

// Each row is a count of units and their sets.
const PLACEMENTS: [[u8; 7]; 12] = [
    [1, 1, 0, 0, 0, 0, 0],
    [1, 2, 0, 0, 0, 0, 0],
    [1, 0, 0, 0, 0, 0, 0],
    [2, 1, 1, 0, 0, 0, 0],
    [2, 1, 4, 0, 0, 0, 0],
    [2, 3, 1, 0, 0, 0, 0],
    [2, 2, 2, 0, 0, 0, 0],
    [2, 7, 1, 0, 0, 0, 0],
    [3, 1, 1, 8, 0, 0, 0],
    [3, 3, 1, 8, 0, 0, 0],
    [3, 1, 1, 1, 0, 0, 0],
    [6, 255, 1, 0, 2, 4, 8],
];

fn answer(allowed: bool) -> &'static str {
    if allowed { "yes" } else { "no" }
}

fn placement_of(row: &[u8; 7]) -> anyhow::Result<Placement> {
    let [units, a, b, c, d, e, f] = *row;
    let slots = [a, b, c, d, e, f].map(|bits| GroupSet { bits });
    Ok(Placement::new(usize::from(units), slots)?)
}

fn show_sets(rt: &HostRuntime, placement: &Placement) -> anyhow::Result<()> {
    for set in placement.sets() {
        print!(rt; " {set}")?;
    }
    println!(rt)?;
    Ok(())
}

#[derive(Drop)]
struct Asked {
    parking: Parking,
    links: Links,
    tuner: Tuner,
    both: Both<Links, Tuner>,
}

fn rules_asked() -> anyhow::Result<Asked> {
    let tuner = Tuner::new(2)?;
    Ok(Asked {
        parking: Parking::load(&PLACES)?,
        links: Links::load(&JOINED_AND_APART)?,
        tuner,
        both: Both {
            one: Links::load(&JOINED)?,
            other: tuner,
        },
    })
}

pub fn show_rules(rt: &HostRuntime) -> anyhow::Result<()> {
    let asked = rules_asked()?;
    println!(rt; "parking: 0 on {{0}} or {{0, 1}}, 1 on {{0}} or {{2}}, 2 on {{3}}")?;
    println!(rt;
        "links: 0 and 1 joined, 0 and 2 apart; tuner: at most 2 groups; both: 0 and 1 joined, at most 2 groups"
    )?;
    println!(rt; "parking links tuner both  sets of the units")?;
    for row in &PLACEMENTS {
        let placement = placement_of(row)?;
        let parking = answer(asked.parking.allows(&placement));
        let links = answer(asked.links.allows(&placement));
        let tuner = answer(asked.tuner.allows(&placement));
        let both = answer(asked.both.allows(&placement));
        print!(rt; "{parking:<7} {links:<5} {tuner:<5} {both:<4} ")?;
        show_sets(rt, &placement)?;
    }
    Ok(())
}
