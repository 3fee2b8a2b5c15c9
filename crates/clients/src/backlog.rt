// The operations that wait to be handed in.
ghost use Rattle.std.specs.Prelude.{◌≡◌, ◌<◌, ◌∷◌, [], ◌++◌, All, length, IfOk, IfNone, OnOk, option_to_list, ℕ};
ghost use Rattle.clients.specs.Backlogs.{backlog_of, backlog_at, ops_of, HasPlace};

use model::types::Op;
use scripts::Task;
use std::alloc::{AllocError, Global};
use std::collections::VecDeque;

/// The operations of a process that are still to be handed in, in order.
#[derive(Drop)]
pub struct Backlog {
    // The first, where it was handed back.
    held: Option<Op>,
    rest: VecDeque<Op>,
}

impl Backlog {
    /// Without operations.
    pub fn new(alloc: Global) -> Backlog
        ensures { backlog_of result ≡ [] }
    {
        Backlog {
            held: None,
            rest: VecDeque::new(alloc),
        }
    }

    /// Puts an operation behind the others.
    ///
    /// # Errors
    ///
    /// `AllocError` where the allocator refuses the place.
    pub fn add(&mut self, op: Op) -> Result<(), AllocError>
        ensures { OnOk result (backlog_of self.new ≡ backlog_of self.old ++ op ∷ []) }
    {
        self.rest.push_back(op)?;
        Ok(())
    }

    /// Takes the first operation. It may be put back.
    pub fn next(&mut self) -> Option<Op>
        ensures first { backlog_of self.old ≡ option_to_list result ++ backlog_of self.new }
        ensures none { IfNone result (backlog_of self.new ≡ []) }
        ensures place { HasPlace self.new }
    {
        match self.held.take() {
            Some(op) => Some(op),
            None => self.rest.pop_front(),
        }
    }

    /// Puts the operation back that was taken last.
    pub fn put_back(&mut self, op: Op)
        requires { HasPlace self.old }
        ensures { backlog_of self.new ≡ op ∷ backlog_of self.old }
    {
        self.held = Some(op);
    }

    /// How many operations there are.
    pub fn count(&self) -> usize
        ensures { result ≡ length (backlog_of self.now) }
    {
        self.rest.len() + usize::from(self.held.is_some())
    }
}

/// The operations of each of so many processes, in the order of a script.
///
/// # Errors
///
/// `AllocError` where the allocator refuses their places.
pub fn backlogs_of(
    alloc: Global,
    tasks: Vec<Task>,
    processes: u32,
) -> Result<Vec<Backlog>, AllocError>
    requires { All (λ task. task.pid < processes) tasks.items }
    ensures count { IfOk result (λ backlogs. length backlogs.items ≡ processes) }
    ensures ops { IfOk result (λ backlogs. (p : ℕ) → p < processes
        → backlog_at backlogs.items p ≡ ops_of p tasks.items) }
{
    let mut backlogs = empty_backlogs(alloc, processes)?;
    for task in tasks {
        backlogs[task.pid as usize].add(task.op)?;
    }
    Ok(backlogs)
}

// So many without operations.
fn empty_backlogs(alloc: Global, processes: u32) -> Result<Vec<Backlog>, AllocError>
    ensures count { IfOk result (λ backlogs. length backlogs.items ≡ processes) }
    ensures empty { IfOk result
        (λ backlogs. All (λ backlog. backlog_of backlog ≡ []) backlogs.items) }
{
    let mut backlogs = Vec::new(alloc);
    for _process in 0..processes {
        backlogs.push(Backlog::new(alloc))?;
    }
    Ok(backlogs)
}
