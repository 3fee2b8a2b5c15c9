// The refusal of a command that prints what a layer below answers.
ghost use Rattle.messages.specs.Telling.{printed_telling};

use crate::told::{Reason, Told, Unwritten};

/// Why such a command wasn't done.
#[derive(Clone, Copy, Debug, Drop)]
pub enum Printed<F> {
    /// The layer's fault.
    Fault(F),
    /// The output can't be written.
    Output,
}

impl<F: Reason> Reason for Printed<F> {
    ghost telling = { printed_telling F.telling };

    fn told(&self) -> Told {
        match self {
            Printed::Fault(fault) => fault.told(),
            Printed::Output => Unwritten.told(),
        }
    }
}
