// Operations of one process, answered and polled on one thread.
ghost use Rattle.std.specs.Prelude.{◌≡◌};
ghost use Rattle.rings.specs.Callers.{intake_count};

use crate::failed::Failed;
use model::types::{Answer, Op, Reply};
use ports::Intake;
use std::alloc::Global;
use sysring::{Board, Caller, RingIntake, rings};

/// Hands in so many operations of one process, each of which is answered and polled before the next.
/// How many were.
pub fn count_answers(alloc: Global, count: u32) -> Result<u64, Failed> {
    let (mut intake, callers) = rings(alloc, 1)?;
    let (board, _keeper, watches) = Board::new(alloc, 1)?;
    let mut callers = callers.into_iter();
    let mut watches = watches.into_iter();
    let (Some(mut caller), Some(mut watch)) = (callers.next(), watches.next()) else {
        return Err(Failed::NoEnds);
    };
    let mut answers: u64 = 0;
    for _pair in 0..count {
        if pair(&mut intake, &mut caller) {
            answers = answers.saturating_add(1);
        }
        let _durable = board.durable(&mut watch);
    }
    Ok(answers)
}

// Hands an operation in, answers it, and polls the answer. Whether there was one.
fn pair(intake: &mut RingIntake, caller: &mut Caller) -> bool
    requires { intake_count intake.old ≡ 1 }
    ensures { intake_count intake.new ≡ 1 }
{
    let _number = caller.submit(Op::Stat(1));
    if !intake.room(0) {
        return false;
    }
    let _op = intake.take(0);
    let answer = Answer {
        seq: 1,
        reply: Reply::NoFile,
        group: 0,
    };
    intake.answer(0, answer);
    caller.poll().is_some()
}
