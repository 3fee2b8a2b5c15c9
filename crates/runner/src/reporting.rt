// What a run's processes were answered, and what became of their operations.
ghost use Rattle.std.specs.Prelude.{◌≡◌, ◌<◌, ◌≤◌, Some, length, flat_map, IfOk, OnOk};
ghost use Rattle.std.specs.Io.KnownBytes.{Appends};
ghost use Rattle.history.specs.Own.{KeepsFirst, KeepsOwn};
ghost use Rattle.model.specs.Layout.{inode_count_of};
ghost use Rattle.ports.specs.History.{SameNames};
ghost use Rattle.rings.specs.Callers.{caller_names, intake_names, unpolled};
ghost use Rattle.clients.specs.Clients.{HaveRings, client_names, client_ops, ops_at};
ghost use Rattle.messages.specs.Answers.{answer_line};
ghost use Rattle.runner.specs.Reports.{IsReported, PrintsBehind};

use blocks::Disk;
use clients::Client;
use kernel::Kernel;
use messages::{AccountLine, AnswerLine, Unwritten, pass_on, print};
use model::types::Answer;
use ports::Herald;
use std::io::Write;
use sysring::{Caller, RingIntake, account};

/// Prints, process by process, a line for each answer and one for what became of its operations.
/// There is a client for each process, with its rings. Where the writer fails the processes behind
/// are accounted for all the same: up to any group, what is kept of each is a beginning of the
/// changing ones of its client's operations. Answers whether each operation has its answer.
pub fn report<D: Disk, H: Herald, O: Write>(
    kernel: &mut Kernel<D, RingIntake, H>,
    clients: Vec<Client>,
    out: &mut O,
) -> Result<bool, Unwritten>
    requires many { length clients.items ≡ length kernel.old.world.processes }
    requires rings { HaveRings (intake_names kernel.old.intake) clients.items }
    ensures reported { IfOk result (λ all. IsReported (inode_count_of (D.image kernel.old.opening))
        kernel.old (ops_at clients.items) (length clients.items) all
        (O.contents out.old) (O.contents out.new)) }
    ensures own { KeepsOwn (inode_count_of (D.image kernel.old.opening))
        kernel.old.world.journal.list (length clients.items) (ops_at clients.items) }
    ensures same { kernel.new ≡ record kernel.old { intake = kernel.new.intake } }
{
    kernel.known();
    let mut reported = Ok(true);
    let mut pid = 0u32;
    for client in clients {
        reported = report_one(kernel, pid, client, reported, out);
        pid += 1;
    }
    let all = reported?;
    pass_on(out)?;
    Ok(all)
}

// The same for one process. Where the reports before it could not be printed, nothing is printed.
fn report_one<D: Disk, H: Herald, O: Write>(
    kernel: &mut Kernel<D, RingIntake, H>,
    pid: u32,
    client: Client,
    before: Result<bool, Unwritten>,
    out: &mut O,
) -> Result<bool, Unwritten>
    requires pid { pid < length kernel.old.world.processes }
    requires rings { intake_names kernel.old.intake pid ≡ Some (client_names client) }
    ensures reported { IfOk result (λ all. PrintsBehind
        (inode_count_of (D.image kernel.old.opening)) kernel.old pid (client_ops client)
        before all (O.contents out.old) (O.contents out.new)) }
    ensures own { KeepsFirst (inode_count_of (D.image kernel.old.opening))
        kernel.old.world.journal.list pid (client_ops client) }
    ensures same { kernel.new ≡ record kernel.old { intake = kernel.new.intake } }
    ensures names { SameNames (intake_names kernel.old.intake) (intake_names kernel.new.intake) }
{
    kernel.known();
    let wanted = client.operations();
    let (caller, answers) = client.into_parts();
    let (account, caller) = account(kernel, pid, caller);
    let before = before?;
    let is_whole = caller.answers_known() >= wanted.saturating_sub(answers.len());
    print_answers(pid, answers.as_slice(), out)?;
    print_known(pid, caller, out)?;
    print(
        out,
        AccountLine {
            pid,
            submitted: account.submitted,
            begun: account.begun,
            left: account.left,
            kept: account.kept,
        },
    )?;
    Ok(before & is_whole)
}

// Prints a line for each of the answers of a process.
fn print_answers<O: Write>(pid: u32, answers: &[Answer], out: &mut O) -> Result<(), Unwritten>
    ensures printed { OnOk result (Appends (O.contents out.old) (O.contents out.new)
        (flat_map (answer_line pid) answers.now)) }
{
    for answer in answers {
        print(out, AnswerLine { pid, answer })?;
    }
    Ok(())
}

// Prints a line for each answer that the caller of a process knows and has not polled.
fn print_known<O: Write>(pid: u32, mut caller: Caller, out: &mut O) -> Result<(), Unwritten>
    ensures printed { OnOk result (Appends (O.contents out.old) (O.contents out.new)
        (flat_map (answer_line pid) (unpolled caller))) }
{
    for _known in 0..caller.answers_known() {
        let Some(answer) = caller.poll() else {
            unreachable!()
        };
        let line = AnswerLine {
            pid,
            answer: &answer,
        };
        print(out, line)?;
    }
    Ok(())
}
