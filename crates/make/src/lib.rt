// Makes a fresh store in two lent word tables, whatever they held before.
#![tactic(auto)]

ghost use Rattle.std.specs.Prelude.{◌≡◌};
ghost use Rattle.refusals.specs.Numbers.{refusal_of};
ghost use Rattle.make.specs.Make.{make_tables};

use make_fresh::{free_slots, lay_levels};
use refusals::Refusal;
use settings::Settings;
use table_levels::level_length;
use table_slots::{entries_fit, slot_count};

// Makes a store; refused with both tables as they were. They are two slices, as C lends them, and the settings four numbers, of which any may be asked.
pub fn make(
    entries: &mut [u32],
    levels: &mut [u32],
    deepest: u32,
    ratio: u32,
    buffer: u32,
    term: u32,
) -> Result<(), Refusal>
    ensures { record { refusal = refusal_of result; entries = entries.new; levels = levels.new } ≡
        make_tables entries.old levels.old (record { deepest = deepest; ratio = ratio; buffer = buffer; term = term }) }
{
    if !entries_fit(entries) {
        return Err(Refusal::EntryLength);
    }
    let settings = Settings::new(deepest, ratio, buffer, term)?;
    if levels.len() != level_length(deepest as usize) {
        return Err(Refusal::LevelTable);
    }
    free_slots(entries, slot_count(entries));
    lay_levels(levels, settings);
    Ok(())
}
