// All chains checked: slot 0, the free chain and every level's, walked once over one set of marks.
#![tactic(auto)]

ghost use Rattle.std.specs.Prelude.{◌≡◌, ◌+◌, ◌*◌, ◌<◌, ◌≤◌, length};
ghost use Rattle.tables.specs.Slots.{slots_of};
ghost use Rattle.tables.specs.Rows.{level_length, settings_of};
ghost use Rattle.check_walk.specs.Slots.{Entries};
ghost use Rattle.check_walk.specs.Walks.{unmarked};
ghost use Rattle.check_chains.specs.Levels.{levels_checked, words_fit, chains_checked};

use check_forms::Free;
use check_level::level;
use check_walk::walk;
use table_levels::{deepest_of, level_at};
use table_slots::{first_free, is_top_blank, slot_count};

// All levels, and that their records and the free slots are all slots: with the marks, each then stands once.
fn levels_fit(e: &[u32], l: &[u32], free: usize, marks: &mut [u8]) -> bool
    requires entries { Entries e.now }
    requires e_bound { slots_of e.now < 8 * length marks.old }
    requires l_bound { (settings_of l.now).deepest ≤ 6 }
    requires l_len { length l.now ≡ level_length (settings_of l.now).deepest }
    requires marks_bound { free + unmarked (slots_of e.now) marks.old ≤ slots_of e.now }
    ensures { record { answer = result; marks = marks.new } ≡ levels_checked e.now l.now ((settings_of l.now).deepest + 1) 0 marks.old free }
{
    let mut total = free;
    for i in 0..=deepest_of(l) {
        let Ok(count) = level(e, l, i, marks) else {
            return false;
        };
        total += count;
    }
    total == slot_count(e)
}

// The words beside the chains. Without owed the deepest level can hold no delete.
fn words_fit(e: &[u32], l: &[u32]) -> bool
    requires entries { Entries e.now }
    requires l_len { length l.now ≡ level_length (settings_of l.now).deepest }
    ensures { result ≡ words_fit e.now l.now }
{
    is_top_blank(e) && level_at(l, deepest_of(l)).owed == 0
}

// All chains of the tables, over marks that are all blank.
pub fn chains_fit(e: &[u32], l: &[u32], marks: &mut [u8]) -> bool
    requires entries { Entries e.now }
    requires e_bound { slots_of e.now < 8 * length marks.old }
    requires l_bound { (settings_of l.now).deepest ≤ 6 }
    requires l_len { length l.now ≡ level_length (settings_of l.now).deepest }
    ensures { record { answer = result; marks = marks.new } ≡ chains_checked e.now l.now marks.old }
{
    if !words_fit(e, l) {
        return false;
    }
    match walk::<Free>(e, first_free(e), 0, marks) {
        Some(free) => levels_fit(e, l, free, marks),
        None => false,
    }
}
