// States to come back to: four places, each with a name of one byte and a copy of the live block. No function of this file that is `pub` has a `requires`.
#![tactic(auto)]

mod copies;
mod places;

ghost use Rattle.std.specs.Prelude.{◌≡◌};
ghost use Rattle.audit.specs.Left.{left};
ghost use Rattle.states.specs.Calls.{keep_of, go_back_of, drop_of};

use crate::copies::{restore_from, store_at};
use crate::places::{keep_place, place_of};
use handed::handed;
use job::refusal::Refusal;
use store::names::set_name_word;

// Keeps the live state under a name: its answer, and every word left.
pub fn keep(work: &mut [u32], name: u8) -> Result<(), Refusal>
    ensures { left result work.new ≡ keep_of work.old name }
{
    handed(work)?;
    let name = name as usize;
    let p = keep_place(work, name).ok_or(Refusal::NoPlace)?;
    store_at(work, p, name);
    Ok(())
}

// Goes back to the state that a name keeps: its answer, and every word left.
pub fn go_back(work: &mut [u32], name: u8) -> Result<(), Refusal>
    ensures { left result work.new ≡ go_back_of work.old name }
{
    handed(work)?;
    let p = place_of(work, name as usize).ok_or(Refusal::UnknownName)?;
    restore_from(work, p);
    Ok(())
}

// Drops a name, which frees its place: its answer, and every word left.
pub fn drop(work: &mut [u32], name: u8) -> Result<(), Refusal>
    ensures { left result work.new ≡ drop_of work.old name }
{
    handed(work)?;
    let p = place_of(work, name as usize).ok_or(Refusal::UnknownName)?;
    set_name_word(work, p, 0);
    Ok(())
}
