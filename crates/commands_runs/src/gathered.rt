// The objects of a run's steps and turns, gathered in memory.
ghost use Rattle.std.specs.Prelude.{◌≡◌, ◌++◌, IfSome, OnOk, false};
ghost use Rattle.std.specs.Io.KnownBytes.{Appends};
ghost use Rattle.json_lines.specs.Events.{event_object};
ghost use Rattle.json_lines.specs.Steps.{step_objects};

use json_lines::{Written, print_event_object, print_step_objects};
use messages::{Event, StepNote, Unwritten};
use std::alloc::Global;
use std::io::Write;

/// The objects of a run's steps and turns so far.
#[derive(Drop)]
pub struct Gathered {
    // The inode numbers of its image.
    inode_count: u32,
    // Its writes.
    written: Vec<Written>,
    text: Vec<u8>,
    // How many steps there were.
    steps: u64,
    // Whether memory for an object was refused.
    short: bool,
}

impl Gathered {
    ghost use Rattle.commands_runs.specs.Explored.{HearsObjects, IsUnheard};

    // None of a run over an image of so many inode numbers that makes these writes.
    pub fn new(alloc: Global, inode_count: u32, written: Vec<Written>) -> Gathered
        ensures { IsUnheard inode_count written.items result }
    {
        Gathered {
            inode_count,
            written,
            text: Vec::new(alloc),
            steps: 0,
            short: false,
        }
    }

    // The run's writes.
    pub fn written(&self) -> &[Written]
        ensures { result.now ≡ self.now.written.items }
    {
        self.written.as_slice()
    }

    // How many steps there were.
    pub fn steps(&self) -> u64
        ensures { result ≡ self.now.steps }
    {
        self.steps
    }

    // The objects, where all are there.
    pub fn text(&self) -> Option<&[u8]>
        ensures { IfSome result (λ text. (self.now.short ≡ false) × (text.now ≡ self.now.text.items)) }
    {
        if self.short {
            return None;
        }
        Some(self.text.as_slice())
    }

    // Hears of a turn: what it came to, and its steps.
    pub fn hear(&mut self, event: &Event, notes: &[StepNote])
        ensures { HearsObjects (record { event = event.now; notes = notes.now }) self.old self.new }
    {
        self.steps = self.steps.saturating_add(notes.len() as u64);
        if self.short {
            return;
        }
        let written = self.written.as_slice();
        match print_objects(&mut self.text, self.inode_count, written, event, notes) {
            Ok(()) => {}
            Err(_refused) => self.short = true,
        }
    }
}

// Writes the objects of a turn's steps, and that of the turn.
fn print_objects<O: Write>(
    out: &mut O,
    inode_count: u32,
    written: &[Written],
    event: &Event,
    notes: &[StepNote],
) -> Result<(), Unwritten>
    ensures { OnOk result (Appends (O.contents out.old) (O.contents out.new)
        (step_objects inode_count written.now notes.now ++ event_object event.now)) }
{
    print_step_objects(out, inode_count, written, notes)?;
    print_event_object(out, event)
}
