// When to wake: the clock of the next due merge, read off the level table.
#![tactic(auto)]

ghost use Rattle.std.specs.Prelude.{◌≡◌, true};
ghost use Rattle.refusals.specs.Numbers.{numbered};
ghost use Rattle.settings.specs.Carried.{Carried};
ghost use Rattle.model_wake.specs.Wake.{wake_level, sooner, next_wake};
ghost use Rattle.tables.specs.Rows.{InRows, settings_of};
ghost use Rattle.tables.specs.Sound.{levels_fit};
ghost use Rattle.wake.specs.Wake.{owed_of, wake_tables};

use check_refusal::check_tables;
use refusals::Refusal;
use settings::LevelSettings;
use table_levels::{level_at, settings_of};

// The clock of the next due merge, where there is one; refused where the tables are not sound. They are two slices, as C lends them.
pub fn wake(entries: &[u32], levels: &[u32]) -> Result<Option<u64>, Refusal>
    ensures { numbered result ≡ wake_tables entries.now levels.now }
{
    check_tables(entries, levels)?;
    Ok(next_wake(levels))
}

// The smallest clock of the levels from 0 to L−1; what is carried down them is no index, but each level's own settings.
fn next_wake(l: &[u32]) -> Option<u64>
    requires { levels_fit l.now ≡ true }
    ensures { result ≡ next_wake (settings_of l.now) (owed_of l.now) }
{
    let settings = settings_of(l);
    let mut at = settings.at_level(0);
    let mut next = None;
    while at.level < settings.deepest {
        next = sooner(next, wake_level(l, at));
        at = at.next();
    }
    next
}

// A level's clock: when it will have owed for its limit.
fn wake_level(l: &[u32], at: LevelSettings) -> Option<u64>
    requires carried { Carried at }
    requires in_rows { InRows l.now at.level }
    ensures { result ≡ wake_level at.settings at.level (owed_of l.now at.level) }
{
    let row = level_at(l, at.level as usize);
    if row.owed == 0 {
        None
    } else {
        // In 64 bits, since the sum can pass 32.
        Some(row.owed as u64 + at.limit())
    }
}

// The smaller of two clocks, where there are two.
fn sooner(a: Option<u64>, b: Option<u64>) -> Option<u64>
    ensures { result ≡ sooner a b }
{
    match (a, b) {
        (None, clock) | (clock, None) => clock,
        (Some(m), Some(n)) => Some(m.min(n)),
    }
}
