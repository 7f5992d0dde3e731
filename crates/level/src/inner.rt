// The steps of a load, for numbers that the caller has found in range: energy, scaling, the mean, the level and the
// verdict.
ghost use Rattle.std.specs.Prelude.{◌≡◌, ◌+◌, ◌*◌, ◌/◌, ◌^◌, ◌<◌, ◌≤◌};
ghost use Rattle.level.specs.Limits.{max_weighted, max_mean};
ghost use Rattle.level.specs.Tables.{IsTableA, IsTableB, ArePowers};
ghost use Rattle.level.specs.declared.Level.TheVariants.{At};
ghost use Rattle.level.specs.Energy.{energy_of, mean_of};
ghost use Rattle.level.specs.Level.{bound, level_of, verdict_of};

use crate::tables::{powers, table_b};
use crate::{Level, Verdict};

// The energy of a weighted level, by table A and the powers of ten.
pub fn energy(a: &[u64; 1000], powers: &[u64; 14], c: u32) -> u64
    requires { (c ≤ max_weighted) × (IsTableA a.now) × (ArePowers powers.now) }
    ensures { result ≡ energy_of c }
{
    let k = (c % 1000) as usize;
    let q = (c / 1000) as usize;
    a[k] * powers[q] / 1000000
}

// s·n / d rounded down, by parts, since s·n need not fit.
pub fn scaled(s: u64, n: u32, d: u32) -> u64
    requires { (0 < d) × (s * n / d < 2 ^ 64) }
    ensures { result ≡ s * n / d }
{
    let rest = s % d as u64 * n as u64 / d as u64;
    s / d as u64 * n as u64 + rest
}

// M: the mean of a total energy over days. 1000 / 86,400 is 5 / 432.
pub fn mean(total: u64, days: u32) -> u64
    requires { 0 < days }
    ensures { result ≡ mean_of total days }
{
    scaled(total, 5, 432) / days as u64
}

// B(k)·10^q / 1000 for n = 1000q + k; from the third decade on 1000 divides the power.
fn bound_at(b: &[u64; 1000], powers: &[u64; 14], n: u32) -> u64
    requires { (n < 14000) × (IsTableB b.now) × (ArePowers powers.now) }
    ensures { result ≡ bound n }
{
    let k = (n % 1000) as usize;
    let q = (n / 1000) as usize;
    if q < 3 {
        b[k] * powers[q] / 1000
    } else {
        b[k] * (powers[q] / 1000)
    }
}

// The decade of a mean energy: q with 10^(q+3) ≤ m < 10^(q+4).
fn decade_of(m: u64) -> u32
    requires { 1000 ≤ m }
    ensures { (10 ^ (result + 3) ≤ m) × (m < 10 ^ (result + 4)) }
{
    m.ilog10() - 3
}

// The smallest level whose bound reaches a mean energy, by a walk through its decade; where no level of that decade
// does, it is the next one's first.
fn first_reaching(b: &[u64; 1000], powers: &[u64; 14], m: u64) -> u32
    requires { (1000 ≤ m) × (m ≤ max_mean) × (IsTableB b.now) × (ArePowers powers.now) }
    ensures { At result ≡ level_of m }
{
    let first = 1000 * decade_of(m);
    for n in first..first + 1000 {
        if m <= bound_at(b, powers, n) {
            return n;
        }
    }
    first + 1000
}

// The level of a mean energy.
pub fn level_of(m: u64) -> Level
    requires { m ≤ max_mean }
    ensures { result ≡ level_of m }
{
    if m < 1000 {
        return Level::BelowZero;
    }
    let b = table_b();
    let p = powers();
    Level::At(first_reaching(&b, &p, m))
}

// Whether a level is over the limit.
pub fn judge(level: Level, limit: u32) -> Verdict
    ensures { result ≡ verdict_of level limit }
{
    match level {
        Level::At(n) if limit < n => Verdict::Over,
        _ => Verdict::Within,
    }
}
