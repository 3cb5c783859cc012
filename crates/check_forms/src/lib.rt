// Which slots may stand in each chain: their kind, and of a record its order, its stamp and what its level owes.
#![tactic(auto)]

ghost use Rattle.std.specs.Prelude.{◌≡◌, ◌&&◌, Bool, List, not, leb, eqb, ℕ};
ghost use Rattle.tables.specs.Slots.{InTable, stamp_of};
ghost use Rattle.tables.specs.Sound.{is_stamped, order_key};
ghost use Rattle.check_forms.specs.Forms.{free_fits, point_fits, range_fits};

use check_kinds::{is_free, is_range};
use table_slots::{Kind, clock_of, has_kind, hi_of, is_untallied, lo_of, order_key, stamp_of};

// What a chain is for decides which slots may stand in it.
pub trait Form {
    // Asked of a table, of what the level owes, of the least key that may come next and of a slot.
    ghost asked: { List ℕ → ℕ → ℕ → ℕ → Bool };

    // Whether slot s may stand in a chain of this form, after keys below least. What is owed is the same for a whole chain, and least is new at each slot:
    // they stand apart.
    fn fits(e: &[u32], owed: u32, least: usize, s: usize) -> bool
        requires { InTable e.now s }
        ensures { result ≡ asked e.now owed least s };
}

// The free chain.
#[derive(Clone, Copy)]
pub struct Free;

// A level's puts and deletes.
#[derive(Clone, Copy)]
pub struct Points;

// A level's range deletes.
#[derive(Clone, Copy)]
pub struct Ranges;

impl Form for Free {
    ghost asked = { free_fits };

    #[tactic(auto, unfolding(crate::specs::Forms::free_fits))]
    fn fits(e: &[u32], _owed: u32, _least: usize, s: usize) -> bool {
        is_free(e, s)
    }
}

impl Form for Points {
    ghost asked = { point_fits };

    // A put of one docket, or a delete without a tally that is owed. The kind is asked here alone: by two functions it would be compared twice with one kind.
    fn fits(e: &[u32], owed: u32, least: usize, s: usize) -> bool {
        let put = has_kind(e, s, Kind::Put);
        let delete = has_kind(e, s, Kind::Delete) & is_untallied(e, s) & is_owed(e, owed, s);
        (lo_of(e, s) == hi_of(e, s)) & is_next(e, least, s) & (put | delete)
    }
}

impl Form for Ranges {
    ghost asked = { range_fits };

    // A range delete that is owed.
    fn fits(e: &[u32], owed: u32, least: usize, s: usize) -> bool {
        is_range(e, s) & is_next(e, least, s) & is_owed(e, owed, s)
    }
}

fn is_stamped(e: &[u32], s: usize) -> bool
    requires { InTable e.now s }
    ensures { result ≡ is_stamped e.now s }
{
    let stamp = stamp_of(e, s);
    (1 <= stamp) & (stamp <= clock_of(e))
}

// What points and ranges have in common: order and stamp.
fn is_next(e: &[u32], least: usize, s: usize) -> bool
    requires { InTable e.now s }
    ensures { result ≡ leb least (order_key e.now s) && is_stamped e.now s }
{
    (least <= order_key(e, s)) & is_stamped(e, s)
}

// A level that holds a delete owes it from its stamp or earlier.
fn is_owed(e: &[u32], owed: u32, s: usize) -> bool
    requires { InTable e.now s }
    ensures { result ≡ not (eqb owed 0) && leb owed (stamp_of e.now s) }
{
    (owed != 0) & (owed <= stamp_of(e, s))
}
