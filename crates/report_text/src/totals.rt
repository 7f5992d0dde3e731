// The movements computed and those without levels, of all groups of a load.
ghost use Rattle.std.specs.Prelude.{◌≡◌};
ghost use Rattle.report_text.specs.Totals.{all_computed, all_missing};

use load_rules::Counts;

#[derive(Clone, Copy)]
pub struct Totals {
    pub computed: u64,
    pub missing: u64,
}

// V and U of all groups, added up.
pub fn added_up(counts: &[Counts; 18]) -> Totals
    ensures { (result.computed ≡ all_computed counts.now) × (result.missing ≡ all_missing counts.now) }
{
    let mut computed: u64 = 0;
    let mut missing: u64 = 0;
    for c in counts {
        computed += c.computed as u64;
        missing += c.missing as u64;
    }
    Totals { computed, missing }
}
