// The charge of a tray's closed paths: the magnitude of their areas' sum, at a rate, as the listing's last line.
ghost use Rattle.std.specs.Prelude.{◌≡◌, ◌≤◌, nat_abs};
ghost use Rattle.rates.specs.Rate.{LARGEST};
ghost use Rattle.rates.specs.Charge.{charge_of};
ghost use Rattle.text.specs.Pour.{poured, pour};
ghost use Rattle.listing.specs.Fields.{paths_in};
ghost use Rattle.listing.specs.Charge.{net_area, charge_text, charged_of};
ghost use Rattle.listing.specs.Told.{told, tell};
ghost use Rattle.listing.specs.Needs.{Listable, Summable};

use crate::{answer, area_in, put_listing, value_length};
use paths::POINT;
use rates::{Charge, charge_of};
use text::{put, put_decimal, put_text};

// The sum of the doubled areas of the first n paths.
fn net_area(t: &[u8], n: usize) -> i64
    requires { Summable t.now n }
    ensures { result ≡ net_area (paths_in t.now n 0) }
{
    let mut a: i64 = 0;
    let mut f: usize = 0;
    for i in 0..n {
        let length = value_length(t, f);
        let e = area_in(t, f + 3, length / POINT);
        a += e;
        f = f + 3 + length;
    }
    a
}

// The charge of the first n paths.
fn charge_in(t: &[u8], n: usize, rate: u64) -> Charge
    requires { Summable t.now n × (rate ≤ LARGEST) }
    ensures { result ≡ charge_of (nat_abs (net_area (paths_in t.now n 0))) rate }
{
    let net = net_area(t, n);
    charge_of(net.unsigned_abs(), rate)
}

// The last line.
fn put_charge(c: Charge, out: &mut [u8], at: usize) -> usize
    ensures { poured result out.new ≡ pour (charge_text c) at out.old }
{
    let a = put_text(out, at, b"charge ");
    let b = put_decimal(out, a, c.quotient);
    let d = put(out, b, b' ');
    let e = put_decimal(out, d, c.remainder);
    put(out, e, b'\n')
}

// The listing of a tray, with the charge of its closed paths at a rate.
pub fn charged(
    t: &[u8],
    closed: usize,
    opened: usize,
    rev: bool,
    rate: u64,
    out: &mut [u8],
) -> Option<usize>
    requires fact_1 { Listable closed opened t.now }
    requires fact_2 { Summable t.now closed }
    requires fact_3 { rate ≤ LARGEST }
    ensures { told result out.new ≡ tell (charged_of rev rate closed opened t.now) out.old }
{
    let c = charge_in(t, closed, rate);
    let a = put_listing(t, closed, opened, rev, out);
    let b = put_charge(c, out, a);
    answer(b, out)
}
