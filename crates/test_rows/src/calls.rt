// The calls of a session, and what they answer.
use crate::fault::LineFault;
use crate::operations::{operation, told_answer};
use kernel::Step;
use model::types::{Answer, Op};
use std::alloc::{AllocError, Global};
use sysring::Account;

// More steps than any operation makes.
const MOST_STEPS: u32 = 2000;

/// A call, mostly of the process or the watch of a number.
#[derive(Drop)]
pub enum Call {
    Submit(usize, Op),
    Poll(usize),
    /// Makes steps until one doesn't answer Moved, or so many.
    Step(u32, u32),
    Durable(usize),
    Ask(usize),
    Counts(u32),
    Settle(u32),
    Shut,
}

impl Call {
    /// The call of a line, if it is one.
    pub fn parse(alloc: Global, line: &str) -> Result<Option<Call>, LineFault> {
        let words: Vec<&str> = line.split_whitespace().collect(alloc)?;
        match operation(alloc, &words) {
            Ok(Some((pid, op))) => Ok(Some(Call::Submit(pid as usize, op))),
            Ok(None) => Ok(call_of(&words)),
            Err(fault) => Err(fault),
        }
    }
}

fn call_of(words: &[&str]) -> Option<Call> {
    match *words {
        ["shut"] => Some(Call::Shut),
        [what, number] => match number.parse() {
            Ok(number) => call_with(what, number),
            Err(_) => None,
        },
        _ => None,
    }
}

fn call_with(what: &str, number: u32) -> Option<Call> {
    match what {
        "poll" => Some(Call::Poll(number as usize)),
        "step" => Some(Call::Step(number, 1)),
        "steps" => Some(Call::Step(number, MOST_STEPS)),
        "durable" => Some(Call::Durable(number as usize)),
        "ask" => Some(Call::Ask(number as usize)),
        "counts" => Some(Call::Counts(number)),
        "settle" => Some(Call::Settle(number)),
        _ => None,
    }
}

/// What a line is answered.
#[derive(Drop)]
pub enum Told {
    /// The line is no call, or one for which something doesn't hold that it asks.
    Refused,
    Fault(LineFault),
    Done,
    Number(u64),
    HandedBack,
    Polled(Option<Answer>),
    /// So many steps moved, and what the next answered, if one was made.
    Moved(u32, Option<Step>),
    /// How many operations were begun, and how many kept.
    Counts(u64, u64),
    NotFinished,
    Settled(Account),
}

impl Told {
    /// The answer as a text.
    pub fn text(self, alloc: Global) -> Result<String, AllocError> {
        match self {
            Told::Refused => String::from_str(alloc, "refused"),
            Told::Fault(fault) => format!(in alloc; "{fault}"),
            Told::Done => String::from_str(alloc, "done"),
            Told::Number(number) => format!(in alloc; "{number}"),
            Told::HandedBack => String::from_str(alloc, "handed back"),
            Told::Polled(answer) => told_answer(alloc, answer),
            Told::Moved(moved, None) => format!(in alloc; "{moved} Moved"),
            Told::Moved(moved, Some(step)) => format!(in alloc; "{moved} Moved, {step:?}"),
            Told::Counts(begun, kept) => format!(in alloc; "begun {begun} kept {kept}"),
            Told::NotFinished => String::from_str(alloc, "not finished"),
            Told::Settled(account) => told_account(alloc, account),
        }
    }
}

fn told_account(alloc: Global, account: Account) -> Result<String, AllocError> {
    format!(in alloc;
        "submitted {} begun {} left {} kept {}",
        account.submitted, account.begun, account.left, account.kept
    )
}
