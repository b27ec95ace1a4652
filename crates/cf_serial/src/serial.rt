//! The serial run of a script, to its end.
ghost use Rattle.std.specs.Prelude.{◌≡◌, ◌≤◌, IfOk, IsSome, Some};
ghost use Rattle.cf_ids.specs.declared.limits.TheConstants.{LARGEST_LIMIT};
ghost use Rattle.cf_syntax.specs.Stage.{IsOfStage};
ghost use Rattle.cf_model.specs.Journals.{After};
ghost use Rattle.cf_world.specs.Worlds.{edges_in};
ghost use Rattle.cf_serial.specs.Serial.{AreEdges, HasRun};

use crate::run::Run;
use cf_graph::Edge;
use cf_model::{Ending, Entry};
use cf_outside::Clock;
use cf_owncheck::Checked;
use cf_world::World;
use std::alloc::{AllocError as NoMemory, Global};

/// A run that is over.
#[derive(Drop)]
pub struct Ran {
    /// How its journal ends.
    pub ending: Ending,
    /// The script.
    pub script: Checked,
    /// The entries.
    pub journal: Vec<Entry>,
    /// The references after it, each as often as there are, in any order.
    pub edges: Vec<Edge>,
}

// What a run leaves.
fn finish(alloc: Global, mut world: World, ending: Ending) -> Result<Ran, NoMemory>
    requires begun { IsSome world.script }
    ensures script { IfOk result (λ ran. Some ran.script ≡ world.script) }
    ensures journal { IfOk result (λ ran. ran.journal.items ≡ world.journal) }
    ensures ending { IfOk result (λ ran. ran.ending ≡ ending) }
    ensures edges { IfOk result (λ ran. AreEdges (edges_in world) ran.edges.items) }
{
    world.sort();
    let edges = world.edges(alloc)?;
    match world.end() {
        Some((script, journal)) => Ok(Ran {
            ending,
            script,
            journal,
            edges,
        }),
        None => unreachable!(),
    }
}

/// Runs a script to its end, in the serial order: a pointer goes round the threads, and the first one at or after it
/// that can go on makes one entry; if none can, the lead lets time move as the clock says. `limit` is the most entries
/// of the journal, from 1 to 4,000,000. `NoMemory` comes for want of memory alone.
pub fn serial_run<C: Clock>(
    alloc: Global,
    script: Checked,
    limit: u32,
    clock: &mut C,
) -> Result<Ran, NoMemory>
    requires some { 1 ≤ limit }
    requires most { limit ≤ LARGEST_LIMIT }
    requires stage { IsOfStage script }
    ensures script { IfOk result (λ ran. ran.script ≡ script) }
    ensures run { IfOk result (λ ran. HasRun script limit (C.times clock.old) ran.ending ran.journal.items) }
    ensures edges { IfOk result (λ ran. AreEdges (After script ran.journal.items).edges ran.edges.items) }
{
    let mut run = Run::begin(alloc, script, limit)?;
    let mut turn = run.turn(alloc)?;
    while turn.goes_on() {
        run.step(clock, turn)?;
        turn = run.turn(alloc)?;
    }
    finish(alloc, run.world, turn.ending())
}
