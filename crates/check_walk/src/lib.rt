// One chain followed with a mark for each slot that it passes.
// The entry table and its `Entries` stay apart here and above: what reads a word of it takes the slice, so a type with both would be opened at each call.
#![tactic(auto)]

ghost use Rattle.std.specs.Prelude.{◌≡◌, ◌*◌, ◌<◌, length};
ghost use Rattle.tables.specs.Slots.{slots_of};
ghost use Rattle.tables.specs.Sound.{chain_from};
ghost use Rattle.check_walk.specs.Slots.{Entries, slot_fits};
ghost use Rattle.check_walk.specs.Walks.{walked};

use check_forms::Form;
use check_marks::{is_marked, mark};
use table_slots::{has_slot, next_of, order_key};

// Asked before the slot is marked: the order keeps every read inside the table. The row and the mark are asked without a branch between them.
fn slot_fits<F: Form>(e: &[u32], owed: u32, least: usize, s: usize, marks: &[u8]) -> bool
    requires entries { Entries e.now }
    requires e_bound { slots_of e.now < 8 * length marks.now }
    ensures { result ≡ slot_fits F.asked e.now owed least s marks.now }
{
    has_slot(e, s) && F::fits(e, owed, least, s) & !is_marked(marks, s)
}

// Follows the chain from head and marks its slots: how many they are, where only what may stand there was found.
// A slot that has a mark is met again and ends the walk.
pub fn walk<F: Form>(e: &[u32], head: usize, owed: u32, marks: &mut [u8]) -> Option<usize>
    requires entries { Entries e.now }
    requires e_bound { slots_of e.now < 8 * length marks.old }
    ensures { record { answer = result; marks = marks.new } ≡ walked F.asked e.now owed 0 0 marks.old (chain_from e.now head) }
{
    let mut at = head;
    let mut least = 0;
    let mut count = 0;
    // No iterator holds the chain: each slot is tested and marked before its next slot may be read.
    while at != 0 {
        if !slot_fits::<F>(e, owed, least, at, marks) {
            return None;
        }
        mark(marks, at);
        least = order_key(e, at) + 1;
        count += 1;
        at = next_of(e, at);
    }
    Some(count)
}
