// What the words of a free slot and of a range delete may be. All are asked by one expression: words read between branches are addressed more slowly.
#![tactic(auto)]

ghost use Rattle.std.specs.Prelude.{◌≡◌};
ghost use Rattle.tables.specs.Slots.{InTable};
ghost use Rattle.tables.specs.Sound.{is_free, is_range};

use table_slots::{
    Kind, date_of, has_kind, hi_of, is_untallied, lo_of, price_of, span_of, stamp_of,
};

// A free slot is zero but for its next, so that nothing of a wiped record is left.
pub fn is_free(e: &[u32], s: usize) -> bool
    requires { InTable e.now s }
    ensures { result ≡ is_free e.now s }
{
    has_kind(e, s, Kind::Free) & (span_of(e, s) == 0) & is_untallied(e, s) & (stamp_of(e, s) == 0)
}

// A range delete with a date from 1 to its stamp, and without a price.
pub fn is_range(e: &[u32], s: usize) -> bool
    requires { InTable e.now s }
    ensures { result ≡ is_range e.now s }
{
    let date = date_of(e, s);
    let dated = (1 <= date) & (date <= stamp_of(e, s));
    (lo_of(e, s) <= hi_of(e, s)) & (has_kind(e, s, Kind::Range) & dated & (price_of(e, s) == 0))
}
