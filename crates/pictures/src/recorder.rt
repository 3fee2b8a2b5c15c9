// The steps of a run, recorded turn by turn.
ghost use Rattle.std.specs.Prelude.{◌≡◌, [], IfOk, length};
ghost use Rattle.pictures.specs.Along.{left_along};
ghost use Rattle.pictures.specs.Recording.{answer_behind, answer_in, with_moment};

use crate::replies::{Gist, gist_of};
use crate::types::Moment;
use blocks::NoMemory;
use messages::{Event, MOST_COLUMNS, StepNote};
use model::types::Step;
use std::alloc::Global;
use std::marker::Model;

/// The first steps of a run, one more than a picture has, with room for all of them.
#[derive(Drop)]
pub struct Moments {
    list: Vec<Moment>,
}

impl Model for Moments {
    ghost use Rattle.std.specs.Prelude.{◌≤◌, List, length, vec_capacity};
    ghost use Rattle.pictures.specs.declared.types.Moment.{Moment};

    ghost Value = { List Moment };

    ghost view = { λ r. r.list.items };

    ghost invariant = { λ r. (2001 ≤ vec_capacity r.list) × (length r.list.items ≤ 2001) };
}

impl Moments {
    // None yet.
    fn new(alloc: Global) -> Result<Moments, NoMemory>
        ensures { IfOk result (λ moments. moments ≡ []) }
    {
        Ok(Moments {
            list: Vec::with_capacity(alloc, MOST_COLUMNS + 1)?,
        })
    }

    // How many there are.
    fn count(&self) -> u32
        ensures { result ≡ length self.now }
    {
        self.list.len() as u32
    }

    // Adds the steps of a turn, with what a process was answered in it. No memory is taken.
    fn add_all(&mut self, answer: Option<Gist>, notes: &[StepNote])
        ensures { self.new ≡ left_along (with_moment answer) self.old notes.now }
    {
        for note in notes {
            self.add(answer, note);
        }
    }

    fn add(&mut self, answer: Option<Gist>, note: &StepNote)
        ensures { self.new ≡ with_moment answer self.old note.now }
    {
        let column = self.list.len();
        if column > MOST_COLUMNS {
            return;
        }
        self.list.push_reserved(Moment {
            column: column as u32,
            note: *note,
            answer: answer_behind(answer, note.step),
        });
    }
}

/// The steps of a run: how many there were, and the first of them, as many as a picture has and one
/// more.
#[derive(Drop)]
pub struct Recorder {
    moments: Moments,
    steps: u64,
}

impl Recorder {
    ghost use Rattle.pictures.specs.Recorders.{heard};

    /// One that heard of no turn.
    ///
    /// # Errors
    ///
    /// `NoMemory` where the allocator refuses the room.
    pub fn new(alloc: Global) -> Result<Recorder, NoMemory>
        ensures { IfOk result (λ recorder. recorder ≡ record { moments = []; steps = 0 }) }
    {
        Ok(Recorder {
            moments: Moments::new(alloc)?,
            steps: 0,
        })
    }

    /// How many steps there were.
    pub fn steps(&self) -> u64
        ensures { result ≡ self.now.steps }
    {
        self.steps
    }

    /// How many of them were recorded.
    pub fn columns(&self) -> u32
        ensures { result ≡ length self.now.moments }
    {
        self.moments.count()
    }

    /// The steps that were recorded.
    pub fn moments(&self) -> &[Moment]
        ensures { result.now ≡ self.now.moments }
    {
        self.moments.list.as_slice()
    }

    /// Hears of a turn: what it came to, and its steps. No memory is taken.
    pub fn hear(&mut self, event: &Event, notes: &[StepNote])
        ensures { self.new ≡ heard event.now notes.now self.old }
    {
        self.steps = self.steps.saturating_add(notes.len() as u64);
        self.moments.add_all(answer_in(event), notes);
    }
}

// What a process was answered in a turn.
fn answer_in(event: &Event) -> Option<Gist>
    ensures { result ≡ answer_in event.now }
{
    match event {
        Event::Answered(_, answer) => Some(gist_of(&answer.reply)),
        _ => None,
    }
}

// It was behind the last of its steps, which didn't move.
fn answer_behind(answer: Option<Gist>, step: Step) -> Option<Gist>
    ensures { result ≡ answer_behind answer step }
{
    match step {
        Step::Moved => None,
        _ => answer,
    }
}
