// What becomes of words that ask a program for no command.
ghost use Rattle.std.specs.Prelude.{◌≡◌, ◌≤◌};
ghost use Rattle.std.specs.Io.KnownBytes.{Appends};
ghost use Rattle.cli.specs.Told.{explanation_text};
ghost use Rattle.commands.specs.Words.{IsHelp};
ghost use Rattle.messages.specs.declared.told.Unwritten.{Unwritten as IsUnwritten};

use cli::Explanation;
use cmd::end;
use messages::print_last;
use std::io::Write;

/// Tells what words ask for that is no command of the program of that name, or what is wrong with
/// them: help and the version are answers, the other texts are not. The exit status: 0, 1 where the
/// output can't be written, 2 for what is no answer.
pub fn explain<O: Write, E: Write>(
    program: &str,
    explanation: Explanation,
    out: &mut O,
    err: &mut E,
) -> u8
    ensures status { result ≤ 2 }
    ensures help { result ≡ 0 → IsHelp explanation }
    ensures printed { result ≡ 0 → Appends (O.contents out.old) (O.contents out.new)
        (explanation_text explanation) }
    ensures unwritten { result ≡ 1 → IsUnwritten × IsHelp explanation }
    ensures mistake { result ≡ 2 → ¬ (IsHelp explanation) }
    ensures misused { result ≡ 2 → out.new ≡ out.old }
    ensures silent { result ≡ 0 → err.new ≡ err.old }
{
    match explanation {
        Explanation::Help(text) => end(program, print_last(out, text), err),
        mistake => {
            let _unwritten = print_last(err, mistake);
            2
        }
    }
}
