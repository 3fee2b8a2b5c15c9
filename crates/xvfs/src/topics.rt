// The formats that help tells of.
ghost use Rattle.std.specs.Prelude.{OnOk};
ghost use Rattle.std.specs.Io.KnownBytes.{Appends};
ghost use Rattle.cli.specs.Topics.{topic_text};

use cli::Topic;
use messages::{Unwritten, pass_on, print};
use std::io::Write;

/// Prints the lines of a topic, as the last text of a command.
pub fn print_topic<O: Write>(out: &mut O, topic: Topic) -> Result<(), Unwritten>
    ensures { OnOk result (Appends (O.contents out.old) (O.contents out.new) (topic_text topic)) }
{
    let lines = topic.lines();
    for line in lines {
        print(out, format_args!("{line}\n"))?;
    }
    pass_on(out)
}
