// What a write puts into the tables, which points it makes go, and whether there is room for it.
#![tactic(auto)]

ghost use Rattle.std.specs.Prelude.{◌≡◌};
ghost use Rattle.model.specs.declared.Tally.{Tally};
ghost use Rattle.lists.specs.All.{Exists};
ghost use Rattle.model.specs.Steps.{Write, crowded};
ghost use Rattle.tables.specs.Slots.{InTable};
ghost use Rattle.chain_cells.specs.Cells.{cell_at};
ghost use Rattle.merge_levels.specs.Laid.{Store, Stored, Laid};
ghost use Rattle.write_record.specs.Records.{record_of, displaces, displaces_as};

use chain_sieve::{first_doomed, has_docket, has_span, is_covered_by};
use model::Tally;
use table_levels::level_at;
use table_slots::{Kind, first_free};

// What a write puts into a slot beside its stamp; the count of a range delete is its date.
#[derive(Clone, Copy)]
pub struct Record {
    pub kind: Kind,
    pub lo: u32,
    pub hi: u32,
    pub tally: Tally,
}

// Whether no slot is free and the entry would free none in the buffer.
pub fn is_crowded(e: &[u32], l: &[u32], w: Record) -> bool
    requires stored { Stored e.now l.now }
    requires written { Exists (λ (v : Write Tally). w ≡ record_of v) }
    ensures { (g : Store) (v : Write Tally) → Laid g e.now l.now → w ≡ record_of v → result ≡ crowded g.time v g.state }
{
    if first_free(e) != 0 {
        return false;
    }
    let buffer = level_at(l, 0);
    if first_doomed(e, buffer.points, |e, slot| displaces(e, slot, w)).is_some() {
        return false;
    }
    match w.kind {
        Kind::Range => first_doomed(
            e,
            buffer.ranges,
            |e, slot| has_span(e, slot, w.lo, w.hi),
        ).is_none(),
        _ => true,
    }
}

// Whether a write makes the point at a slot go: the one of its docket, or one that a range delete covers.
pub fn displaces(e: &[u32], slot: usize, w: Record) -> bool
    requires { InTable e.now slot }
    ensures { result ≡ displaces w (cell_at e.now slot) }
{
    displaces_as(e, slot, w.kind as u32, w)
}

// The same by a kind's number, of which any may be asked: 3 is a range delete, and any other names its first docket.
pub fn displaces_as(e: &[u32], slot: usize, kind: u32, w: Record) -> bool
    requires { InTable e.now slot }
    ensures { result ≡ displaces_as kind w (cell_at e.now slot) }
{
    if kind == Kind::Range as u32 {
        is_covered_by(e, slot, w.lo, w.hi, w.tally.count)
    } else {
        has_docket(e, slot, w.lo)
    }
}
