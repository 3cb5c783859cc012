// Lookup of one docket in the two tables: levels from 0, up to the first that decides.
#![tactic(auto)]

ghost use Rattle.std.specs.Prelude.{◌≡◌, ◌≤◌};
ghost use Rattle.refusals.specs.Numbers.{refusal_of, numbered};
ghost use Rattle.model.specs.Lookup.{lookup};
ghost use Rattle.tables.specs.Rows.{settings_of};
ghost use Rattle.tables.specs.Placed.{read_level, read_state};
ghost use Rattle.check_refusal.specs.Dockets.{docket_refusal};
ghost use Rattle.lookup_level.specs.Answers.{level_decides};
ghost use Rattle.lookup.specs.Found.{found_of};
ghost use Rattle.lookup_level.specs.Readable.{Readable};
ghost use Rattle.lookup.specs.Lookup.{answer_of, lookup_tables, numbers};
ghost use Rattle.lookup.specs.Counts.{lookup_counts, counts_alone, count_numbers};

use check_refusal::check_dockets;
use lookup_level::{Decided, Found, look_chains};
use model::Tally;
use refusals::Refusal;
use table_levels::{deepest_of, level_at};

// Looks one docket up: its tally and stamp, if it is live. Refused where the tables are not sound, or no docket has the number. The two
// tables stay two slices, as C lends them.
#[inline(always)]
pub fn lookup(entries: &[u32], levels: &[u32], docket: u32) -> Result<Option<Found<Tally>>, Refusal>
    ensures value { answer_of (numbered result) ≡ lookup_tables entries.now levels.now docket }
    ensures result_value { refusal_of result ≡ docket_refusal entries.now levels.now docket docket }
    ensures numbers_value { (numbers (answer_of (numbered result))).refusal ≡ docket_refusal entries.now levels.now docket docket }
{
    check_dockets(entries, levels, docket, docket)?;
    Ok(look_up(entries, levels, docket))
}

// The same for the grower: the count and the stamp.
pub fn lookup_count(
    entries: &[u32],
    levels: &[u32],
    docket: u32,
) -> Result<Option<Found<u32>>, Refusal>
    ensures value { answer_of (numbered result) ≡ lookup_counts entries.now levels.now docket }
    ensures result_value { refusal_of result ≡ docket_refusal entries.now levels.now docket docket }
    ensures numbers_value { (count_numbers (answer_of (numbered result))).refusal ≡ docket_refusal entries.now levels.now docket docket }
{
    without_price(lookup(entries, levels, docket))
}

// The answer with the price left out.
#[inline(always)]
pub fn without_price<E>(answer: Result<Option<Found<Tally>>, E>) -> Result<Option<Found<u32>>, E>
    ensures { result ≡ counts_alone answer }
{
    match answer {
        Ok(found) => Ok(found.map(|put| Found {
            stamp: put.stamp,
            shown: put.shown.count,
        })),
        Err(refusal) => Err(refusal),
    }
}

// One level, by its row, with the latest date met above it.
fn look_level(e: &[u32], l: &[u32], level: usize, docket: u32, date: u32) -> Decided
    requires { Readable e.now l.now × (level ≤ (settings_of l.now).deepest) }
    ensures { result ≡ level_decides date (read_level e.now l.now level) docket }
{
    let row = level_at(l, level);
    look_chains(e, row.points, row.ranges, docket, date)
}

// Reads the levels from 0, carries the latest date met so far, and stops at the first level that decides.
fn look_up(e: &[u32], l: &[u32], docket: u32) -> Option<Found<Tally>>
    requires { Readable e.now l.now }
    ensures { found_of result ≡ lookup (read_state e.now l.now).levels docket }
{
    let levels = deepest_of(l) + 1;
    let mut date = 0;
    for level in 0..levels {
        match look_level(e, l, level, docket, date) {
            Decided::Value(found) => return Some(found),
            Decided::Absent => return None,
            Decided::Deeper(met) => date = met,
        }
    }
    None
}
