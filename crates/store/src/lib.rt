// The work space: every word is read and written by its column's name.
#![tactic(auto)]

ghost use Rattle.std.specs.Prelude.{◌≡◌, ◌+◌, ◌<◌, ◌≤◌, ◌^◌, length, get_or};
ghost use Rattle.store.specs.Field.{size, base};
ghost use Rattle.store.specs.Field as field;
ghost use Rattle.store.specs.Reason.{reason_number};
ghost use Rattle.store.specs.Reason as reason;
ghost use Rattle.rings.specs.Progress.{at_validity, while_removing, at_split};
ghost use Rattle.store.specs.Words.{cell, put};
ghost use Rattle.store.specs.Column.{column_of};

use job::Job;

// No point, no record.
pub const NONE: usize = Job::NONE;

// Why a record has no ring: there was none in the job; it was joined into another record; or a step discarded it, by one of three rules.
pub const NO_RING: usize = 1;

pub const JOINED: usize = 2;

pub const AT_VALIDITY: usize = 3;

pub const WHILE_REMOVING: usize = 4;

pub const AT_SPLIT: usize = 5;

// The columns: the only index into the words of points and records.
#[derive(Clone, Copy)]
pub enum Col {
    X,
    Y,
    Next,
    Prev,
    Rec,
    Z,
    Flags,
    Owner,
    First,
    Mark,
    Present,
    Start,
    Cut,
    Reason,
    Taker,
    Settings,
    Points,
    Records,
}

// The settings and the counts stand in the head; then the points' columns, then the records'.
const HEAD: usize = 16;

const AFTER: usize = HEAD + Job::POINTS * 6;

// Behind the columns, four words for each record: its box.
pub const BOXES: usize = AFTER + Job::RECORDS * 9;

// The live block, in words: all columns, and the boxes. A work space begins with it.
pub const BLOCK: usize = BOXES + Job::RECORDS * 4;

// How many states may be kept.
pub const STATES: usize = 4;

// After the live block a word for each place says its name, and then a copy of the block stands for each.
pub const NAMES: usize = BLOCK;

pub const KEPT: usize = NAMES + STATES;

// The fixed length of a work space, in words.
pub const LENGTH: usize = KEPT + STATES * BLOCK;

// Where a column begins.
fn base_of(c: Col) -> usize
    ensures { result ≡ base (column_of c) }
{
    match c {
        Col::X => HEAD + Job::POINTS * 0,
        Col::Y => HEAD + Job::POINTS * 1,
        Col::Next => HEAD + Job::POINTS * 2,
        Col::Prev => HEAD + Job::POINTS * 3,
        Col::Rec => HEAD + Job::POINTS * 4,
        Col::Z => HEAD + Job::POINTS * 5,
        Col::Flags => AFTER + Job::RECORDS * 0,
        Col::Owner => AFTER + Job::RECORDS * 1,
        Col::First => AFTER + Job::RECORDS * 2,
        Col::Mark => AFTER + Job::RECORDS * 3,
        Col::Present => AFTER + Job::RECORDS * 4,
        Col::Start => AFTER + Job::RECORDS * 5,
        Col::Cut => AFTER + Job::RECORDS * 6,
        Col::Reason => AFTER + Job::RECORDS * 7,
        Col::Taker => AFTER + Job::RECORDS * 8,
        Col::Settings => 0,
        Col::Points => 1,
        Col::Records => 2,
    }
}

// Which word is number i of a column.
fn word_of(c: Col, i: usize) -> usize
    requires { i < size (column_of c) }
    ensures { (result ≡ base (column_of c) + i) × (result < field.BLOCK) }
{
    base_of(c) + i
}

// One word.
fn load(w: &[u32], k: usize) -> usize
    requires { k < length w.now }
    ensures { (result ≡ get_or w.now k 0) × (result < 2 ^ 32) }
{
    w[k] as usize
}

// Word i of a column. That the words are long enough is asked here and of whoever reads or writes them: a struct that says so once would have to be two, for words lent and lent to be written, and be made anew at each read between writes.
pub fn get(w: &[u32], c: Col, i: usize) -> usize
    requires { (field.BLOCK ≤ length w.now) × (i < size (column_of c)) }
    ensures { (result ≡ cell (column_of c) w.now i) × (result < 2 ^ 32) }
{
    load(w, word_of(c, i))
}

// How many words a column has.
fn size_of(c: Col) -> usize
    ensures { result ≡ size (column_of c) }
{
    match c {
        Col::X | Col::Y | Col::Next | Col::Prev | Col::Rec | Col::Z => Job::POINTS,
        Col::Flags
        | Col::Owner
        | Col::First
        | Col::Mark
        | Col::Present
        | Col::Start
        | Col::Cut
        | Col::Reason
        | Col::Taker => Job::RECORDS,
        Col::Settings | Col::Points | Col::Records => 1,
    }
}

// Word i of a column, and 0 past its end: for words that were not tested yet.
pub fn read(w: &[u32], c: Col, i: usize) -> usize
    requires { field.BLOCK ≤ length w.now }
    ensures { (result ≡ cell (column_of c) w.now i) × (result < 2 ^ 32) }
{
    if i < size_of(c) {
        return get(w, c, i);
    }
    0
}

// Stores word i of a column.
pub fn set(w: &mut [u32], c: Col, i: usize, v: usize)
    requires { (field.BLOCK ≤ length w.old) × (i < size (column_of c)) × (v < 2 ^ 32) }
    ensures { w.new ≡ put (column_of c) w.old i v }
{
    w[word_of(c, i)] = v as u32;
}

// The code's constants are those of the definitions.
fn constants_agree()
    ensures boxes { BOXES ≡ field.BOXES }
    ensures block { BLOCK ≡ field.BLOCK }
    ensures states { STATES ≡ field.STATES }
    ensures names { NAMES ≡ field.NAMES }
    ensures kept { KEPT ≡ field.KEPT }
    ensures length_at { LENGTH ≡ field.LENGTH }
    ensures none { NONE ≡ field.NONE }
    ensures no_ring { NO_RING ≡ reason.NO_RING }
    ensures joined { JOINED ≡ reason.JOINED }
    ensures at_validity { AT_VALIDITY ≡ reason_number at_validity }
    ensures while_removing { WHILE_REMOVING ≡ reason_number while_removing }
    ensures at_split { AT_SPLIT ≡ reason_number at_split }
{}

pub mod boxed;
pub mod names;
