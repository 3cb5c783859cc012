// Prints, for the settings of the papers' cases, each level's limit and capacity.
#![tactic(auto)]

use settings::Settings;
use std::io;

// L, T, B and D of each case; the last is out of range.
const CASES: [[u32; 4]; 7] = [
    [3, 2, 2, 9],
    [4, 4, 8, 100],
    [3, 10, 1, 10],
    [6, 2, 64, 1],
    [2, 10, 64, 4294967295],
    [6, 10, 64, 4294967295],
    [7, 2, 2, 9],
];

fn main(rt: HostRuntime) -> io::Result<()> {
    for [deepest, ratio, buffer, term] in CASES {
        show(&rt, deepest, ratio, buffer, term)?;
    }
    Ok(())
}

// One line of settings and one for each level that has a limit, or the refusal.
fn show(rt: &impl Print, deepest: u32, ratio: u32, buffer: u32, term: u32) -> io::Result<()> {
    print!(rt; "L={deepest} T={ratio} B={buffer} D={term}")?;
    match Settings::new(deepest, ratio, buffer, term) {
        Ok(settings) => show_levels(rt, settings),
        Err(refusal) => println!(rt; ": refused {}", refusal.number()),
    }
}

fn show_levels(rt: &impl Print, settings: Settings) -> io::Result<()> {
    println!(rt)?;
    for level in 0..6 {
        if let Some(limit) = settings.limit(level) {
            print!(rt; "  level {level}: limit {limit}")?;
            if let Some(capacity) = settings.capacity(level) {
                print!(rt; ", capacity {capacity}")?;
            }
            println!(rt)?;
        }
    }
    Ok(())
}
