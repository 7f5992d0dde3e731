// The numbers of a line, from the 78 of an account.
ghost use Rattle.std.specs.Prelude.{◌≡◌, ◌^◌, ◌<◌};
ghost use Rattle.movement.specs.Limits.{group_count};
ghost use Rattle.explain_text.specs.InnerNumbers.{number_at, whole_at, sum_at, Addable, group_in, all_in};

use movement::limits::GROUPS;

// Movements computed and not, the factor's upper and lower, the energy, and what of it is counted.
#[derive(Clone, Copy)]
pub struct Amounts {
    pub computed: u64,
    pub missing: u64,
    pub upper: u64,
    pub lower: u64,
    pub energy: u64,
    pub counted: u64,
}

// Number `k` of the four of a group.
fn number_at(numbers: &[u64; 78], g: usize, k: usize) -> u64
    requires { (g < group_count) × (k < 4) }
    ensures { result ≡ number_at numbers.now g k }
{
    numbers[4 * g + k]
}

// Number `k` behind those of the groups.
fn whole_at(numbers: &[u64; 78], k: usize) -> u64
    requires { k < 6 }
    ensures { result ≡ whole_at numbers.now k }
{
    numbers[4 * GROUPS + k]
}

// Number `k` of all groups, added up.
fn sum_at(numbers: &[u64; 78], k: usize) -> u64
    requires { (k < 4) × (sum_at numbers.now k group_count < 2 ^ 64) }
    ensures { result ≡ sum_at numbers.now k group_count }
{
    let mut sum: u64 = 0;
    for g in 0..GROUPS {
        sum += number_at(numbers, g, k);
    }
    sum
}

// The line of a group.
pub(crate) fn group_amounts(numbers: &[u64; 78], g: usize) -> Amounts
    requires { (g < group_count) × Addable numbers.now }
    ensures { result ≡ group_in numbers.now g }
{
    let computed = number_at(numbers, g, 0);
    let missing = number_at(numbers, g, 1);
    Amounts {
        computed,
        missing,
        upper: computed + missing,
        lower: computed,
        energy: number_at(numbers, g, 2),
        counted: number_at(numbers, g, 3),
    }
}

// The line `all`.
pub(crate) fn all_amounts(numbers: &[u64; 78]) -> Amounts
    requires { Addable numbers.now }
    ensures { result ≡ all_in numbers.now }
{
    Amounts {
        computed: sum_at(numbers, 0),
        missing: sum_at(numbers, 1),
        upper: whole_at(numbers, 0),
        lower: whole_at(numbers, 1),
        energy: whole_at(numbers, 2),
        counted: whole_at(numbers, 3),
    }
}
