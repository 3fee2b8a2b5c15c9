// What help tells of besides commands: the formats of docs/FORMAT.md.
ghost use Rattle.std.specs.Prelude.{◌≡◌, ◌∷◌, [], MatchOption, map};
ghost use Rattle.cli.specs.Topics.{AsksAbout, AsksAboutNone, lines_of, name_of};

use crate::texts::{IMAGE, REFUSALS, SCHEDULE, SCRIPT, STATUS};
use std::convert::AsStr;

/// What help tells of besides commands.
#[derive(Clone, Copy, Debug, Drop)]
pub enum Topic {
    /// The lines of a script.
    Script,
    /// The words of a schedule, and what a replay prints of them.
    Schedule,
    /// The lines of refusals.
    Refusals,
    /// The exit statuses.
    Status,
    /// The blocks of an image.
    Image,
}

/// All of them, in the order of help.
pub const TOPICS: &[Topic] = &[
    Topic::Script,
    Topic::Schedule,
    Topic::Refusals,
    Topic::Status,
    Topic::Image,
];

/// What help says of them below a program's commands.
pub(crate) const TOPICS_TOLD: &str = "Topics of help:
  script    The lines of a script: operations, and the types of files
  schedule  The words of a schedule, and what a replay prints of them
  refusals  The lines of refusals: layer, number and name
  status    The exit statuses
  image     The blocks of an image, byte for byte";

impl Topic {
    /// The word by which help is asked for it.
    pub fn name(self) -> &'static str
        ensures { result.now ≡ name_of self }
    {
        match self {
            Topic::Script => "script",
            Topic::Schedule => "schedule",
            Topic::Refusals => "refusals",
            Topic::Status => "status",
            Topic::Image => "image",
        }
    }

    /// The topic that these words, without the program's name, ask help to tell of, if they do: they
    /// are `help` and its name.
    pub fn asked<S: AsStr>(words: &[S]) -> Option<Topic>
        ensures { MatchOption result (AsksAboutNone (map S.text words.now))
            (AsksAbout (map S.text words.now)) }
    {
        match words {
            [help, name] => Topic::asked_of(help.as_str(), name.as_str()),
            _ => None,
        }
    }

    // The same of two words.
    fn asked_of(help: &str, name: &str) -> Option<Topic>
        ensures { MatchOption result (AsksAboutNone (help.now ∷ name.now ∷ []))
            (AsksAbout (help.now ∷ name.now ∷ [])) }
    {
        if help != "help" {
            return None;
        }
        Topic::named(name)
    }

    // The topic of a name.
    fn named(name: &str) -> Option<Topic>
        ensures { MatchOption result ((topic : Topic) → ¬ (name.now ≡ name_of topic))
            (λ topic. name.now ≡ name_of topic) }
    {
        match name {
            "script" => Some(Topic::Script),
            "schedule" => Some(Topic::Schedule),
            "refusals" => Some(Topic::Refusals),
            "status" => Some(Topic::Status),
            "image" => Some(Topic::Image),
            _ => None,
        }
    }

    /// Its lines, of at most 79 columns each.
    pub fn lines(self) -> &'static [&'static str]
        ensures { map (λ line. line.now) result.now ≡ lines_of self }
    {
        match self {
            Topic::Script => SCRIPT,
            Topic::Schedule => SCHEDULE,
            Topic::Refusals => REFUSALS,
            Topic::Status => STATUS,
            Topic::Image => IMAGE,
        }
    }
}
