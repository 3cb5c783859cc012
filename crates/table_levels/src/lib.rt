// The words of the level table: the settings' row and a level's row, read and written, and how many words they are.
// Table and level stay two parameters, as table and slot do in the entry table; and the lengths of the two tables have little in common but a product.
#![tactic(auto)]

ghost use Rattle.std.specs.Prelude.{◌≡◌, ℕ, ◌≤◌, length};
ghost use Rattle.model.specs.declared.Tally.{Tally};
ghost use Rattle.lists.specs.All.{Exists};
ghost use Rattle.model.specs.Records.{State, held_all};
ghost use Rattle.model.specs.Merge.{earlier};
ghost use Rattle.tables.specs.Rows.{row_size, level_length, InRows, settings_of, set_settings, set_row, no_row};
ghost use Rattle.tables.specs.Sound.{levels_fit};
ghost use Rattle.table_levels.specs.Levels.{level_at, row_at, RowsAre};

use settings::Settings;

// Words a row.
const WORDS: usize = 4;

// What a level's row tells: its first point, its first range, its number of records, and owed.
#[derive(Clone, Copy)]
pub struct Level {
    pub points: usize,
    pub ranges: usize,
    pub held: usize,
    pub owed: u32,
}

// L, the deepest level.
pub fn deepest_of(l: &[u32]) -> usize
    requires { row_size ≤ length l.now }
    ensures { result ≡ (settings_of l.now).deepest }
{
    l[0] as usize
}

// L, T, B and D, as the first row has them.
pub fn settings_of(l: &[u32]) -> Settings
    requires { row_size ≤ length l.now }
    ensures { result ≡ settings_of l.now }
{
    Settings {
        deepest: l[0],
        ratio: l[1],
        buffer: l[2],
        term: l[3],
    }
}

pub fn set_settings(l: &mut [u32], s: Settings)
    requires { row_size ≤ length l.old }
    ensures { l.new ≡ set_settings l.old s }
{
    l[0] = s.deepest;
    l[1] = s.ratio;
    l[2] = s.buffer;
    l[3] = s.term;
}

// What the row of level i tells.
pub fn level_at(l: &[u32], i: usize) -> Level
    requires { InRows l.now i }
    ensures { result ≡ level_at l.now i }
{
    let row = WORDS * (i + 1);
    Level {
        points: l[row] as usize,
        ranges: l[row + 1] as usize,
        held: l[row + 2] as usize,
        owed: l[row + 3],
    }
}

// The row of level i becomes that of another level.
pub fn set_level(l: &mut [u32], i: usize, level: Level)
    requires in_rows { InRows l.old i }
    requires points_bound { (level.points ≤ 65535) × (level.ranges ≤ 65535) × (level.held ≤ 65535) }
    ensures { l.new ≡ set_row l.old i (row_at level) }
{
    set_row(
        l,
        i,
        level.points as u32,
        level.ranges as u32,
        level.held as u32,
        level.owed,
    );
}

// All of level i's row becomes zero.
pub fn clear_level(l: &mut [u32], i: usize)
    requires { InRows l.old i }
    ensures { l.new ≡ set_row l.old i no_row }
{
    set_row(l, i, 0, 0, 0, 0);
}

// Owed becomes the earlier one that is not zero.
pub fn earlier(a: u32, b: u32) -> u32
    ensures { result ≡ earlier a b }
{
    if a == 0 {
        b
    } else if b == 0 {
        a
    } else {
        a.min(b)
    }
}

// The number of records of all levels.
pub fn held_all(l: &[u32]) -> u32
    requires { Exists (λ p. RowsAre p l.now) }
    ensures { (p : State ℕ Tally) → RowsAre p l.now → result ≡ held_all p.levels }
{
    let mut held = 0;
    for i in 0..deepest_of(l) + 1 {
        held += held_at(l, i);
    }
    held
}

// The number of records of level i, as its word has it.
fn held_at(l: &[u32], i: usize) -> u32
    requires { InRows l.now i }
    ensures { result ≡ (level_at l.now i).held }
{
    l[WORDS * (i + 1) + 2]
}

// The words of a level table.
pub fn level_length(deepest: usize) -> usize
    requires { deepest ≤ 4294967295 }
    ensures { result ≡ level_length deepest }
{
    WORDS * (deepest + 2)
}

// Whether the first row is allowed, and the table has a row for each of its levels.
pub fn levels_fit(l: &[u32]) -> bool
    ensures { result ≡ levels_fit l.now }
{
    // Asked first, so that there is a first row to read.
    if l.len() < WORDS {
        return false;
    }
    let Ok(settings) = Settings::new(l[0], l[1], l[2], l[3]) else {
        return false;
    };
    l.len() == level_length(settings.deepest as usize)
}

// Writes all words of level i's row.
fn set_row(l: &mut [u32], i: usize, points: u32, ranges: u32, held: u32, owed: u32)
    requires { InRows l.old i }
    ensures { l.new ≡ set_row l.old i (record { points = points; ranges = ranges; held = held; owed = owed }) }
{
    let row = WORDS * (i + 1);
    l[row] = points;
    l[row + 1] = ranges;
    l[row + 2] = held;
    l[row + 3] = owed;
}
