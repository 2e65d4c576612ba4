// The rate that a program is given as its argument, and the charge of an area at that rate.
#![tactic(auto)]

ghost use Rattle.std.specs.Prelude.{◌≡◌, true, not, ◌+◌, ◌-◌, ◌*◌, ◌≤◌, ◌^◌, min};
ghost use Rattle.rates.specs.Rate.{is_digit, in_range, rate_in, asked, arguments, rate_of};
ghost use Rattle.rates.specs.Rate as rates;
ghost use Rattle.rates.specs.Charge.{charge_of};
ghost use Rattle.rates.specs.Charge as charges;

// The largest rate, and the divisor of magnitude times rate.
pub const LARGEST: u64 = 1000;

pub const DIVISOR: u64 = 20000000000;

// The numbers that definitions cite are the code's.
fn largest_agrees()
    ensures { LARGEST ≡ rates.LARGEST }
{}

fn divisor_agrees()
    ensures { DIVISOR ≡ charges.DIVISOR }
{}

// What the arguments say: none, a rate in cents, or a bad one; callers hand over any of the three, so it is no Option or Result.
#[derive(Clone, Copy)]
pub enum Rate {
    NoRate,
    Cents(u64),
    Bad,
}

// A number with one digit more; one that has passed the largest rate stays past it.
fn with_digit(v: u64, b: u8) -> u64
    requires { (v ≤ rates.LARGEST + 1) × (is_digit b ≡ true) }
    ensures { result ≡ min (rates.LARGEST + 1) (10 * v + (b - 48)) }
{
    (10 * v + u64::from(b - b'0')).min(LARGEST + 1)
}

// The rate that one argument says.
pub fn rate_in(s: &[u8]) -> Rate
    ensures { result ≡ rate_in s.now }
{
    let mut v: u64 = 0;
    for &b in s {
        if !b.is_ascii_digit() {
            return Rate::Bad;
        }
        v = with_digit(v, b);
    }
    in_range(v)
}

// A rate in the range, or a bad one.
fn in_range(n: u64) -> Rate
    ensures { result ≡ in_range n }
{
    match n {
        1..=LARGEST => Rate::Cents(n),
        _ => Rate::Bad,
    }
}

// A rate that a caller hands over.
pub fn asked(rate: Rate) -> Rate
    ensures { result ≡ asked rate }
{
    match rate {
        Rate::Cents(n) => in_range(n),
        other => other,
    }
}

// What the arguments of a program say that was started with so many words, its own name first and then this one.
pub fn rate_of(words: usize, first: &[u8]) -> Rate
    ensures { result ≡ rate_of (arguments words first.now) }
{
    match words {
        0 | 1 => Rate::NoRate,
        2 => rate_in(first),
        _ => Rate::Bad,
    }
}

// A charge in cents, and what is left of the division.
#[derive(Clone, Copy)]
pub struct Charge {
    pub quotient: u64,
    pub remainder: u64,
}

// The charge of a doubled area's magnitude.
pub fn charge_of(magnitude: u64, rate: u64) -> Charge
    requires { (magnitude ≤ 2 ^ 53) × (rate ≤ rates.LARGEST) }
    ensures { result ≡ charge_of magnitude rate }
{
    let n = magnitude * rate;
    Charge {
        quotient: n / DIVISOR,
        remainder: n % DIVISOR,
    }
}
