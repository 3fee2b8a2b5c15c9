// A kernel over rings and a board, and the calls of it.
ghost use Rattle.std.specs.Prelude.{◌≡◌, ◌<◌, ℕ, All, IfOk, Some, length, map};
ghost use Rattle.rings.specs.Boards.{KeeperOf, WatchOf, board_id, kept_board, published};
ghost use Rattle.ports.specs.History.{nothing_yet};
ghost use Rattle.rings.specs.Callers.{IntakeFits, intake_count};
ghost use Rattle.test_rows.specs.Sessions.{AreCallersOf};

use crate::calls::{Call, Told};
use blocks::{MemDisk, NoMemory};
use kernel::{Kernel, OpenFault, Step};
use model::types::Op;
use std::alloc::{AllocError, Global};
use sysring::{Board, BoardHerald, Caller, Keeper, RingIntake, Watch, compare, rings, settle};

// A kernel over rings and a board.
type Opened<'a> = Kernel<MemDisk, RingIntake, BoardHerald<'a>>;

/// What the lines work on.
#[derive(Drop)]
pub struct Session<'a> {
    board: &'a Board,
    watches: Vec<Watch>,
    kernel: Opened<'a>,
    // Those that have not finished.
    callers: Vec<Option<Caller>>,
    ghost kernel_is: { kept_board kernel.herald.keeper ≡ Some (board_id board.now) },
    ghost watches_are: { All (WatchOf board.now) watches.items },
    ghost callers_are: { AreCallersOf kernel.intake callers.items },
}

/// Opens a kernel of so many processes over the image on a disk.
pub fn open<'a>(
    alloc: Global,
    disk: MemDisk,
    board: &'a Board,
    keeper: Keeper,
    watches: Vec<Watch>,
    processes: u32,
) -> Result<Session<'a>, OpenFault>
    requires keeper { KeeperOf board.now keeper × (published keeper ≡ 0) }
    requires watches { All (WatchOf board.now) watches.items }
{
    match ends(alloc, processes) {
        Ok((intake, callers)) => {
            let herald = BoardHerald::new(board, keeper);
            match Kernel::open(alloc, disk, intake, herald, processes) {
                Ok(kernel) => Ok(Session {
                    board,
                    watches,
                    kernel,
                    callers,
                }),
                Err((fault, _disk)) => Err(fault),
            }
        }
        Err(NoMemory) => Err(OpenFault::NoMemory),
    }
}

// The kernel's ends of so many processes' rings, and callers none of which has finished.
fn ends(alloc: Global, processes: u32) -> Result<(RingIntake, Vec<Option<Caller>>), NoMemory>
    ensures count { IfOk result (λ r. intake_count r.0 ≡ processes) }
    ensures fresh { IfOk result (λ r. (p : ℕ) → IntakeFits r.0 p nothing_yet) }
    ensures callers { IfOk result (λ r. AreCallersOf r.0 r.1.items) }
{
    let (intake, callers) = rings(alloc, processes)?;
    match held(alloc, callers) {
        Ok(callers) => Ok((intake, callers)),
        Err(AllocError) => Err(NoMemory),
    }
}

// Callers none of which has finished.
fn held(alloc: Global, callers: Vec<Caller>) -> Result<Vec<Option<Caller>>, AllocError>
    ensures { IfOk result (λ held. held.items ≡ map Some callers.items) }
{
    let mut held = Vec::new(alloc);
    for caller in callers {
        held.push(Some(caller))?;
    }
    Ok(held)
}

impl<'a> Session<'a> {
    ghost use Rattle.std.specs.Prelude.{◌≡◌, IfSome, Some};
    ghost use Rattle.rings.specs.Callers.{caller_names, intake_names};

    /// Makes a call, and tells what it answers.
    pub fn make(&mut self, call: Call) -> Told {
        match call {
            Call::Submit(pid, op) => self.submit(pid, op),
            Call::Poll(pid) => self.poll(pid),
            Call::Step(pid, most) => self.steps(pid, most),
            Call::Durable(watch) => self.durable(watch),
            Call::Ask(watch) => self.ask(watch),
            Call::Counts(pid) => self.counts(pid),
            Call::Settle(pid) => self.settle(pid),
            Call::Shut => self.shut(),
        }
    }

    // Takes the caller of a process, if it has not finished.
    fn take(&mut self, pid: usize) -> Option<Caller>
        ensures rings { IfSome result (λ c.
            intake_names self.new.kernel.intake pid ≡ Some (caller_names c)) }
        ensures same { self.new.kernel ≡ self.old.kernel }
    {
        if pid >= self.callers.len() {
            return None;
        }
        self.callers[pid].take()
    }

    // Puts a caller back.
    fn put(&mut self, pid: usize, caller: Caller)
        requires { intake_names self.old.kernel.intake pid ≡ Some (caller_names caller) }
    {
        if pid < self.callers.len() {
            self.callers[pid] = Some(caller);
        }
    }

    fn submit(&mut self, pid: usize, op: Op) -> Told {
        let Some(mut caller) = self.take(pid) else {
            return Told::Refused;
        };
        let answer = caller.submit(op);
        self.put(pid, caller);
        match answer {
            Ok(number) => Told::Number(number),
            Err(_op) => Told::HandedBack,
        }
    }

    fn poll(&mut self, pid: usize) -> Told {
        let Some(mut caller) = self.take(pid) else {
            return Told::Refused;
        };
        let answer = caller.poll();
        self.put(pid, caller);
        Told::Polled(answer)
    }

    // Steps until one doesn't answer Moved, or so many.
    fn steps(&mut self, pid: u32, most: u32) -> Told {
        for moved in 0..most {
            match self.step(pid) {
                Some(Step::Moved) => {}
                Some(answer) => return Told::Moved(moved, Some(answer)),
                None => return Told::Refused,
            }
        }
        Told::Moved(most, None)
    }

    // A step of a process, if there is one of that number.
    fn step(&mut self, pid: u32) -> Option<Step> {
        if pid as usize >= self.kernel.processes() {
            return None;
        }
        Some(self.kernel.step(pid))
    }

    fn durable(&mut self, watch: usize) -> Told {
        let Some(watch) = self.watches.get_mut(watch) else {
            return Told::Refused;
        };
        let seen = self.board.durable(watch);
        compare(&mut self.kernel, watch);
        Told::Number(seen)
    }

    fn ask(&mut self, watch: usize) -> Told {
        let Some(watch) = self.watches.get_mut(watch) else {
            return Told::Refused;
        };
        self.board.ask_shut(watch);
        Told::Done
    }

    fn counts(&mut self, pid: u32) -> Told {
        if pid as usize >= self.kernel.processes() {
            return Told::Refused;
        }
        let (begun, kept) = self.kernel.counts(pid);
        Told::Counts(begun, kept)
    }

    // Finishes a caller, and settles its rings.
    fn settle(&mut self, pid: u32) -> Told {
        if pid as usize >= self.kernel.processes() {
            return Told::Refused;
        }
        let Some(caller) = self.take(pid as usize) else {
            return Told::Refused;
        };
        match caller.finish() {
            Some(finished) => Told::Settled(settle(&mut self.kernel, pid, finished)),
            None => Told::NotFinished,
        }
    }

    fn shut(&mut self) -> Told {
        self.kernel.shut();
        Told::Done
    }
}
