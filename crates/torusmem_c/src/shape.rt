//! What a machine is built to, as C sees it.

ghost use Rattle.std.specs.Prelude.{◌≡◌, ◌∷◌, [], None};
ghost use Rattle.std.specs.Prelude.{slice_index};
ghost use Rattle.torus.specs.Shape.{dateline_of, radix_of};
ghost use Rattle.c_handles.specs.HeldMachine.{held};
ghost use Rattle.torusmem_c.specs.Held.{OnHeld};
ghost use Rattle.torusmem_c.specs.Shapes.{PutsShape, shape_record};

use crate::outcome::Outcome;
use c_handles::MachineHandle;
use machine_asked::AskedMachine;
use torus::Torus;

/// What a machine is built to: the radix and the dateline of each of its dimensions, of which there are
/// one to three, and 0 for the others; the flits of a channel, the tags of a processor and the words of
/// the memory; the tiles, and how many inputs each router has, and as many outputs.
#[repr(C)]
#[derive(Clone, Copy)]
pub struct ShapeRecord {
    pub dims: u32,
    pub radices: [u32; 3],
    pub datelines: [u32; 3],
    pub depth: u32,
    pub tags: u32,
    pub words: u32,
    pub tiles: u32,
    pub ports: u32,
}

/// The radix of a dimension, or 0 where there is no such dimension.
fn radix_or_none(torus: &Torus, dim: u32) -> u32
    ensures { result ≡ radix_of torus.now dim }
{
    if dim < torus.dims() {
        torus.radix_of(dim)
    } else {
        0
    }
}

/// The dateline of a dimension, or 0 where there is no such dimension.
fn dateline_or_none(torus: &Torus, dim: u32) -> u32
    ensures { result ≡ dateline_of torus.now dim }
{
    if dim < torus.dims() {
        torus.dateline_of(dim)
    } else {
        0
    }
}

/// What C sees of the shape of a machine.
fn shape_record(machine: &AskedMachine) -> ShapeRecord
    ensures { result ≡ shape_record machine.now.core }
{
    let torus = machine.machine().torus();
    ShapeRecord {
        dims: torus.dims(),
        radices: [
            radix_or_none(torus, 0),
            radix_or_none(torus, 1),
            radix_or_none(torus, 2),
        ],
        datelines: [
            dateline_or_none(torus, 0),
            dateline_or_none(torus, 1),
            dateline_or_none(torus, 2),
        ],
        depth: machine.depth(),
        tags: machine.tags(),
        words: machine.machine().words(),
        tiles: torus.tiles(),
        ports: 8 * torus.dims() + 2,
    }
}

/// Tells what the machine is built to.
#[unsafe(no_mangle)]
pub extern "C" fn torusmem_shape(handle: &mut MachineHandle, out: &mut ShapeRecord) -> Outcome
    ensures held { OnHeld (PutsShape out.new) (held handle.old) (held handle.new) result }
    ensures empty { held handle.old ≡ None → out.new ≡ out.old }
{
    match handle.machine() {
        Some(machine) => {
            *out = shape_record(machine.asked());
            Outcome::done(0)
        }
        None => Outcome::empty(),
    }
}
