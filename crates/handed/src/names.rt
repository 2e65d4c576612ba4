// The names of kept states.
ghost use Rattle.std.specs.Prelude.{◌≡◌, ◌≤◌, length, Ok};
ghost use Rattle.store.specs.Field.{KEPT};
ghost use Rattle.handed.specs.Handed.{kept_twice, names_tested};

use job::refusal::Refusal;
use store::names::same_name;

// Whether one name is kept twice: each pair of places, without a loop, since every call asks it.
fn kept_twice(w: &[u32]) -> bool
    requires { KEPT ≤ length w.now }
    ensures { result ≡ kept_twice w.now }
{
    let a = same_name(w, 0, 1);
    let b = same_name(w, 0, 2);
    let c = same_name(w, 1, 2);
    let d = same_name(w, 0, 3);
    let e = same_name(w, 1, 3);
    let f = same_name(w, 2, 3);
    ((a | (b | c)) | ((d | e) | f))
}

// The last test, where all before it passed.
pub fn names_tested(w: &[u32]) -> Result<(), Refusal>
    requires { KEPT ≤ length w.now }
    ensures { result ≡ names_tested w.now (Ok tt) }
{
    if kept_twice(w) {
        return Err(Refusal::Muddled);
    }
    Ok(())
}
