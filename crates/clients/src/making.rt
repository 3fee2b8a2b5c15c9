// Feeders and clients for so many processes.
ghost use Rattle.std.specs.Prelude.{◌≡◌, ◌<◌, ℕ, All, IfOk, length};
ghost use Rattle.ports.specs.History.{nothing_yet};
ghost use Rattle.rings.specs.Callers.{intake_count, intake_names, IntakeFits};
ghost use Rattle.clients.specs.Clients.{AreClients};
ghost use Rattle.clients.specs.Feeders.{AreNewFeeders, ArePaired};

use crate::backlog::{Backlog, backlogs_of};
use crate::client::Client;
use crate::feeder::Feeder;
use blocks::NoMemory;
use rings::{Caller, RingIntake, rings};
use scripts::Task;
use std::alloc::{AllocError, Global};

/// Feeders with the operations of a script for each of so many processes, and the kernel's ends of
/// their rings.
///
/// # Errors
///
/// `NoMemory` where the allocator refuses the places of the operations or of the rings.
pub fn feeders(
    alloc: Global,
    tasks: Vec<Task>,
    processes: u32,
) -> Result<(RingIntake, Vec<Feeder>), NoMemory>
    requires { All (λ task. task.pid < processes) tasks.items }
    ensures count { IfOk result (λ made. intake_count made.0 ≡ processes) }
    ensures fresh { IfOk result (λ made. (p : ℕ) → IntakeFits made.0 p nothing_yet) }
    ensures feeders { IfOk result (λ made.
        AreNewFeeders (intake_names made.0) tasks.items processes made.1.items) }
{
    let backlogs = backlogs_of(alloc, tasks, processes)?;
    let (intake, callers) = rings(alloc, processes)?;
    let feeders = paired(alloc, callers, backlogs)?;
    Ok((intake, feeders))
}

/// The same with room for the answers of each.
///
/// # Errors
///
/// `NoMemory` where the allocator refuses the places of the operations, of the rings or of the
/// answers.
pub fn clients(
    alloc: Global,
    tasks: Vec<Task>,
    processes: u32,
) -> Result<(RingIntake, Vec<Client>), NoMemory>
    requires { All (λ task. task.pid < processes) tasks.items }
    ensures count { IfOk result (λ made. intake_count made.0 ≡ processes) }
    ensures fresh { IfOk result (λ made. (p : ℕ) → IntakeFits made.0 p nothing_yet) }
    ensures clients { IfOk result (λ made.
        AreClients (intake_names made.0) tasks.items processes made.1.items) }
{
    let (intake, feeders) = feeders(alloc, tasks, processes)?;
    let mut clients = Vec::new(alloc);
    for feeder in feeders {
        clients.push(Client::new(alloc, feeder)?)?;
    }
    Ok((intake, clients))
}

// The callers, each with the operations of its process.
fn paired(
    alloc: Global,
    callers: Vec<Caller>,
    backlogs: Vec<Backlog>,
) -> Result<Vec<Feeder>, AllocError>
    requires many { length callers.items ≡ length backlogs.items }
    ensures { IfOk result (λ feeders. ArePaired callers.items backlogs.items feeders.items) }
{
    let mut feeders = Vec::new(alloc);
    let mut backlogs = backlogs.into_iter();
    for caller in callers {
        let Some(backlog) = backlogs.next() else {
            unreachable!()
        };
        feeders.push(Feeder { caller, backlog })?;
    }
    Ok(feeders)
}
