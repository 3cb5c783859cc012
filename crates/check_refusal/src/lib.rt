// Refusals 1 to 4: the soundness check of the two tables, then whether lo and hi are dockets in their order.
#![tactic(auto)]

ghost use Rattle.std.specs.Prelude.{◌≡◌};
ghost use Rattle.refusals.specs.Numbers.{refusal_of};
ghost use Rattle.tables.specs.Sound.{table_refusal};
ghost use Rattle.check_refusal.specs.Dockets.{docket_refusal};

use check_chains::chains_fit;
use refusals::Refusal;
use table_levels::levels_fit;
use table_slots::entries_fit;

const LAST_DOCKET: u32 = 65535;

// The refusal that the tables meet, of the first three, where they are not sound.
pub fn check_tables(entries: &[u32], levels: &[u32]) -> Result<(), Refusal>
    ensures { refusal_of result ≡ table_refusal entries.now levels.now }
{
    if !entries_fit(entries) {
        return Err(Refusal::EntryLength);
    }
    if !levels_fit(levels) {
        return Err(Refusal::LevelTable);
    }
    // Made here and lent, so that the loops know only its length.
    let mut marks = [0u8; 8192];
    if !chains_fit(entries, levels, &mut marks) {
        return Err(Refusal::Chains);
    }
    Ok(())
}

// The first of the refusals 1 to 4 that a call of the dockets from lo to hi meets.
pub fn check_dockets(entries: &[u32], levels: &[u32], lo: u32, hi: u32) -> Result<(), Refusal>
    ensures { refusal_of result ≡ docket_refusal entries.now levels.now lo hi }
{
    check_tables(entries, levels)?;
    if LAST_DOCKET < hi || hi < lo {
        return Err(Refusal::Docket);
    }
    Ok(())
}
