// What a kernel tells its herald, and gives its intake.
ghost use Rattle.std.specs.Prelude.{◌≡◌, ◌⊎◌, ◌<◌, ◌+◌, length, IsSome, IfSome, true};
ghost use Rattle.history.specs.Journal.{FitsRoom};
ghost use Rattle.history.specs.Processes.{process, last_answer, answered};
ghost use Rattle.kernel.specs.Heralds.{IsUnasked};
ghost use Rattle.kernel.specs.Ports.{Gives};

use history::Processes;
use ports::{Herald, Intake};

// Tells a herald that one group more is committed, if one is.
pub fn tell<H: Herald>(herald: &mut H, before: u64, now: u64)
    requires told { H.count herald.old ≡ before }
    requires one { (now ≡ before) ⊎ (now ≡ before + 1) }
    ensures count { H.count herald.new ≡ now }
    ensures unasked { IsUnasked H.Herald herald.old herald.new }
{
    if now > before {
        herald.durable(now);
    }
}

// Gives a process the answer of its operation, which is at its end.
pub fn give<I: Intake>(processes: &mut Processes, intake: &mut I, pid: u32)
    requires pid { pid < length processes.old.processes }
    requires served { pid < I.process_count intake.old }
    requires over { IsSome (last_answer processes.old (process processes.old pid).at) }
    requires fits { IfSome (last_answer processes.old (process processes.old pid).at)
        (λ answer. FitsRoom (process processes.old pid).room answer.reply) }
    requires room { (I.side intake.old pid).has_room ≡ true }
    ensures processes { processes.new ≡ answered processes.old pid }
    ensures gives { Gives I.Intake processes.old pid intake.old intake.new }
{
    let answer = processes.answer(pid);
    intake.answer(pid, answer);
}
