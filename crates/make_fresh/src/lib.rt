// The words of a fresh store, laid over whatever the two tables held before.
#![tactic(auto)]

ghost use Rattle.std.specs.Prelude.{◌≡◌, ◌+◌, ◌*◌, ◌≤◌, length};
ghost use Rattle.tables.specs.Slots.{entry_length, set_slot, free_slot};
ghost use Rattle.tables.specs.Rows.{level_length};
ghost use Rattle.make_fresh.specs.Fresh.{next_free, made_entries, made_levels};

use settings::Settings;
use table_levels::{clear_level, set_settings};
use table_slots::{set_free, set_top};

// Writes every word of the entry table: slot 0, then each slot as the next of the free chain.
pub fn free_slots(entries: &mut [u32], slots: usize)
    requires { (length entries.old ≡ entry_length slots) × (slots ≤ 65535) }
    ensures { entries.new ≡ made_entries slots }
{
    set_top(entries, 1);
    for slot in 1..=slots {
        free_slot(entries, slot, slots);
    }
}

// The last slot ends the free chain; any other leads to the slot after it.
fn free_slot(entries: &mut [u32], slot: usize, slots: usize)
    requires { (length entries.old ≡ entry_length slots) × (slots ≤ 65535) × (slot ≤ slots) }
    ensures { entries.new ≡ set_slot entries.old slot (free_slot (next_free slots slot)) }
{
    let next = if slot == slots { 0 } else { slot + 1 };
    set_free(entries, slot, next);
}

// Writes every word of the level table: the settings, then a row of zeros for each level.
pub fn lay_levels(levels: &mut [u32], s: Settings)
    requires { length levels.old ≡ level_length s.deepest }
    ensures { levels.new ≡ made_levels s }
{
    set_settings(levels, s);
    for i in 0..=s.deepest as usize {
        clear_level(levels, i);
    }
}
