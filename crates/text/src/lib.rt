// Text into a lent slice, from a place on: a byte, a word, a decimal number. A byte past the end is lost; each function answers where the next one goes.
// The slice and the place stay two parameters: a struct of both was tried in this crate and proves, but each writer then says a second clause, that the struct holds the same reference, and a loop has to keep it in its invariant.
#![tactic(auto)]

ghost use Rattle.std.specs.Prelude.{◌≡◌, [], ◌∷◌, ◌+◌, ◌-◌, ◌<◌};
ghost use Rattle.text.specs.Pour.{poured, pour};
ghost use Rattle.text.specs.Text.{decimal};

// One byte, if there is room; answers where the next one goes.
pub fn put(out: &mut [u8], at: usize, b: u8) -> usize
    ensures { poured result out.new ≡ pour (b ∷ []) at out.old }
{
    let n = out.len();
    if at < n {
        out[at] = b;
        return at + 1;
    }
    if n < at {
        return at;
    }
    n + 1
}

// A word.
pub fn put_text(out: &mut [u8], at: usize, s: &[u8]) -> usize
    ensures { poured result out.new ≡ pour s.now at out.old }
{
    let mut k = at;
    for &b in s {
        k = put(out, k, b);
    }
    k
}

// A decimal number.
pub fn put_decimal(out: &mut [u8], at: usize, n: u64) -> usize
    ensures { poured result out.new ≡ pour (decimal n) at out.old }
{
    if n < 10 {
        return put(out, at, 48 + n as u8);
    }
    let k = put_decimal(out, at, n / 10);
    put(out, k, 48 + (n % 10) as u8)
}
