// The numbers of answers, as the calls for C and Rust hand them over: 0 or the refusal's number, and in the high half what else there is to say.
#![tactic(auto)]

ghost use Rattle.std.specs.Prelude.{◌≡◌, ◌+◌, ◌*◌, ◌^◌, ◌<◌};
ghost use Rattle.job.specs.Limits as limit;
ghost use Rattle.prefix.specs.Decides.{LONGEST};
ghost use Rattle.rewriting.specs.Answers.{BytesWithin};
ghost use Rattle.paths.specs.Tray.{tag_of};
ghost use Rattle.telling.specs.Within.{NumberWithin, ToldWithin};
ghost use Rattle.windows.specs.Within.{FoundWithin};
ghost use Rattle.answers.specs.Answers.{opened_number, reply_number, written_number, listed_bytes, rewritten_number, reason_word, told_number, found_number, rate_from};

use job::refusal::Refusal;
use paths::{Written, tag_of};
use rates::Rate;
use telling::Reason;

// ---- the numbers of answers

pub fn opened_number(a: Result<(), Refusal>) -> u32
    ensures { result ≡ opened_number a }
{
    reply_number(a)
}

pub fn reply_number(a: Result<(), Refusal>) -> u32
    ensures { result ≡ reply_number a }
{
    match a {
        Ok(()) => 0,
        Err(x) => x.number(),
    }
}

pub fn written_number(a: Result<Written, Refusal>) -> u32
    ensures { result ≡ written_number a }
{
    match a {
        Ok(_) => 0,
        Err(x) => x.number(),
    }
}

pub fn listed_bytes(a: Option<usize>) -> u64
    ensures { result ≡ listed_bytes a }
{
    match a {
        Some(n) => n as u64,
        None => 0,
    }
}

// In the low half 0 or the refusal's number, in the high half how many bytes the job has.
pub fn rewritten_number(a: Result<usize, Refusal>) -> u64
    requires { BytesWithin a LONGEST }
    ensures { result ≡ rewritten_number a }
{
    match a {
        Ok(n) => 4294967296 * n as u64,
        Err(x) => x.number() as u64,
    }
}

fn joined_word(taker: usize) -> u64
    requires { taker < limit.RECORDS }
    ensures { (result ≡ 2 + 65536 * taker) × (result < 2 ^ 32) }
{
    2 + 65536 * taker as u64
}

fn written_word(opened: bool, place: usize) -> u64
    requires { place < limit.RECORDS }
    ensures { (result ≡ 8 + 256 * tag_of opened + 65536 * place) × (result < 2 ^ 32) }
{
    let tag = tag_of(opened);
    8 + 256 * tag as u64 + 65536 * place as u64
}

// A reason in one word: its number, the tag of the list that its path is in, and its taker or its path's place; 0 for each that it does not have.
fn reason_word(x: Reason) -> u64
    requires { NumberWithin x }
    ensures { (result ≡ reason_word x) × (result < 2 ^ 32) }
{
    match x {
        Reason::NoRing => 1,
        Reason::Joined(taker) => joined_word(taker),
        Reason::SmallRing => 3,
        Reason::RingFell => 4,
        Reason::SmallArea => 5,
        Reason::ShortPath => 6,
        Reason::SmallPath => 7,
        Reason::Written { open, place } => written_word(open, place),
    }
}

// In the low half 0 or the refusal's number, in the high half the reason.
pub fn told_number(a: Result<Reason, Refusal>) -> u64
    requires { ToldWithin a }
    ensures { result ≡ told_number a }
{
    match a {
        Ok(x) => {
            let n = reason_word(x);
            return 4294967296 * n;
        }
        Err(x) => {
            return x.number() as u64;
        }
    }
}

// In the low half 0 or the refusal's number, in the high half how many records were found.
pub fn found_number(a: Result<usize, Refusal>) -> u64
    requires { FoundWithin a }
    ensures { result ≡ found_number a }
{
    match a {
        Ok(n) => 4294967296 * n as u64,
        Err(x) => x.number() as u64,
    }
}

// ---- a rate handed over

// 0 is none; whether another is in the range the listing asks.
pub fn rate_from(n: u32) -> Rate
    ensures { result ≡ rate_from n }
{
    if n == 0 {
        return Rate::NoRate;
    }
    Rate::Cents(u64::from(n))
}
