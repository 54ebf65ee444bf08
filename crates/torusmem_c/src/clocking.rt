//! Clocked and fair rounds of the machine that a handle holds.

ghost use Rattle.std.specs.Prelude.{◌≡◌};
ghost use Rattle.c_handles.specs.HeldMachine.{held};
ghost use Rattle.torusmem_c.specs.Clocked.{MakesClocked, MakesFair, SaysClocked, SaysFair};
ghost use Rattle.torusmem_c.specs.Held.{OnGuarded, OnHeld};

use crate::outcome::Outcome;
use c_handles::MachineHandle;

/// Makes one clocked round: each choice that is enabled now is attempted once. The puts of each router
/// begin at input `turn mod p`, where p is the number of its inputs.
#[unsafe(no_mangle)]
pub extern "C" fn torusmem_clocked_round(handle: &mut MachineHandle, turn: u64) -> Outcome
    ensures { OnHeld (MakesClocked turn) (held handle.old) (held handle.new) result }
{
    match handle.machine() {
        Some(machine) => {
            machine.clocked_round(turn);
            Outcome::done(0)
        }
        None => Outcome::empty(),
    }
}

/// Makes clocked rounds, with the turns from 0 on, until every script is finished, and answers how many.
#[unsafe(no_mangle)]
pub extern "C" fn torusmem_finish_clocked(handle: &mut MachineHandle) -> Outcome
    ensures { OnHeld SaysClocked (held handle.old) (held handle.new) result }
{
    match handle.machine() {
        Some(machine) => Outcome::done(machine.finish_clocked()),
        None => Outcome::empty(),
    }
}

/// Makes one fair round: a clocked one, in which of the heads in a router that of the oldest operation goes
/// first. Where an operation has been out for more than 241 fair rounds for each tag of each tile, none
/// begins: 1 then, and else 0. So no operation waits for ever.
#[unsafe(no_mangle)]
pub extern "C" fn torusmem_fair_round(handle: &mut MachineHandle) -> Outcome
    ensures { OnGuarded MakesFair (held handle.old) (held handle.new) result }
{
    match handle.machine() {
        Some(machine) => Outcome::told(machine.fair_round()),
        None => Outcome::empty(),
    }
}

/// Makes fair rounds until every script is finished, at most so many, and answers how many.
#[unsafe(no_mangle)]
pub extern "C" fn torusmem_fair_rounds(handle: &mut MachineHandle, most: u64) -> Outcome
    ensures { OnGuarded (SaysFair most) (held handle.old) (held handle.new) result }
{
    match handle.machine() {
        Some(machine) => Outcome::done(machine.fair_rounds(most)),
        None => Outcome::empty(),
    }
}
