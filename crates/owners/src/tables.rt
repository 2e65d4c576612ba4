// A table with a number of 32 bits for each record.
ghost use Rattle.std.specs.Prelude.{◌≡◌, ◌<◌, ◌^◌, set};
ghost use Rattle.owners.specs.Tables.{UNKNOWN, entry};

// Nothing is known of the record.
pub const UNKNOWN: usize = 65536;

// The same, as a table's entry.
pub const BLANK: u32 = UNKNOWN as u32;

// The number of record r; of a number past the table nothing is known.
pub fn at(t: &[u32], r: usize) -> usize
    ensures { (result ≡ entry t.now r) × (result < 2 ^ 32) }
{
    t.get(r).map_or(UNKNOWN, |n| *n as usize)
}

// Sets the number of record r, if it has one. (By `get_mut` the proof didn't close: nothing is known of the table where it answers none.)
pub fn put(t: &mut [u32], r: usize, n: usize)
    requires { n < 2 ^ 32 }
    ensures { t.new ≡ set t.old r n }
{
    if r < t.len() {
        t[r] = n as u32;
    }
}
