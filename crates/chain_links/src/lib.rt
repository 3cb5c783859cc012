// One slot of a chain changed: linked to another slot, wiped and freed, or given a later date and stamp.
#![tactic(auto)]

ghost use Rattle.std.specs.Prelude.{◌≡◌, ◌<◌};
ghost use Rattle.tables.specs.Slots.{InTable};
ghost use Rattle.chain_links.specs.Links.{linked, released, later_taken};

use table_slots::{
    date_of, first_free, kind_of, set_date, set_first_free, set_free, set_link, stamp_of,
};

// Of two ranges alike the one that stays takes the later date and the later stamp.
pub fn take_later(e: &mut [u32], slot: usize, other: usize)
    requires in_table { InTable e.old slot }
    requires in_table_2 { InTable e.old other }
    ensures { e.new ≡ later_taken e.old slot other }
{
    let date = date_of(e, slot).max(date_of(e, other));
    let stamp = stamp_of(e, slot).max(stamp_of(e, other));
    set_date(e, slot, date, stamp);
}

// The slot's next becomes another; its kind stays.
pub fn set_next(e: &mut [u32], slot: usize, next: usize)
    requires in_table { InTable e.old slot }
    requires next_bound { next < 65536 }
    ensures { e.new ≡ linked e.old slot next }
{
    let kind = kind_of(e, slot);
    set_link(e, slot, next, kind);
}

// A slot wiped, so that nothing of its record is left, and made the first of the free ones.
pub fn release(e: &mut [u32], slot: usize)
    requires in_table { InTable e.old slot }
    requires slot_bound { slot < 65536 }
    ensures { e.new ≡ released e.old slot }
{
    set_free(e, slot, first_free(e));
    set_first_free(e, slot);
}
