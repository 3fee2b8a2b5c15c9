// A program's command line, told to clap by the table of its commands.
ghost use Rattle.std.specs.Prelude.{◌≡◌, false, IfOk};
ghost use Rattle.clap.specs.Words.{App, rule_of};
ghost use Rattle.cli.specs.CommandLine.{HasApp, HasMore, named_app};
ghost use Rattle.cli.specs.Table.{line_app, outline_app, preset_rule, valued_rule, with_lines, with_words, word_rule};

use crate::table::{EXPLAIN, Kind, Line, NO_LOCK, Outline, WAIT, Word};
use crate::topics::{TOPICS_TOLD, Topic};
use clap::{Arg, ArgAction, Command, value_parser};
use std::alloc::{AllocError, Global};

/// A program, with its commands.
///
/// # Errors
///
/// `AllocError` where memory is refused.
pub(crate) fn program_of<'a>(alloc: Global, outline: Outline) -> Result<Command<'a>, AllocError>
    ensures { IfOk result (HasApp (outline_app outline)) }
{
    with_commands(alloc, bare_program(alloc, outline)?, outline.lines)
}

// A program, with these commands.
fn with_commands<'a>(
    alloc: Global,
    program: Command<'a>,
    lines: &'static [Line],
) -> Result<Command<'a>, AllocError>
    ensures { IfOk result (λ new. (app : App) → HasApp app program.entry
        → HasApp (with_lines app lines.now) new) }
{
    let mut program = program;
    for line in lines {
        program = with_command(program, command_of(alloc, *line))?;
    }
    Ok(program)
}

// A program, without its commands.
fn bare_program<'a>(alloc: Global, outline: Outline) -> Result<Command<'a>, AllocError>
    ensures { IfOk result (HasApp (named_app outline.name.now)) }
{
    Ok(
        Command::new(alloc, outline.name)
            .version(outline.version)
            .about(outline.about)
            .after_help(told_below(outline.topics))
            .bin_name(outline.name)?
            .no_binary_name(true)
            .subcommand_required(true),
    )
}

// What help says of these topics.
fn told_below(topics: &[Topic]) -> &'static str {
    if topics.is_empty() { "" } else { TOPICS_TOLD }
}

// The program, with one more command if there is memory for it.
fn with_command<'a>(
    program: Command<'a>,
    more: Result<Command<'a>, AllocError>,
) -> Result<Command<'a>, AllocError>
    ensures { IfOk result (HasMore program.entry more.entry) }
{
    program.subcommand(more?)
}

// One command, with its words.
fn command_of<'a>(alloc: Global, line: Line) -> Result<Command<'a>, AllocError>
    ensures { IfOk result (HasApp (line_app line)) }
{
    let command = Command::new(alloc, line.name)
        .about(line.about)
        .after_help(line.example);
    match line.image {
        Some(image) => {
            let command = with_words(alloc, command, &[image, WAIT, EXPLAIN, NO_LOCK])?;
            with_words(alloc, command, line.words)
        }
        None => with_words(alloc, command, line.words),
    }
}

// A command, with these words.
fn with_words<'a>(
    alloc: Global,
    command: Command<'a>,
    words: &[Word],
) -> Result<Command<'a>, AllocError>
    ensures { IfOk result (λ new. (app : App) → HasApp app command.entry
        → HasApp (with_words app words.now) new) }
{
    let mut command = command;
    for word in words {
        command = command.arg(argument(alloc, *word))?;
    }
    Ok(command)
}

// One word of a command.
fn argument<'a>(alloc: Global, word: Word) -> Arg<'a>
    ensures rule { rule_of result ≡ word_rule word }
    ensures local { result.global ≡ false }
{
    let argument = Arg::new(alloc, word.name).help(word.help);
    match word.kind {
        Kind::Needed => argument.required(true),
        Kind::Free => argument,
        Kind::Rest => argument.action(ArgAction::Append),
        Kind::Number => argument.required(true).value_parser(value_parser!(u32)),
        Kind::Choice => argument.value_parser(value_parser!(u32)),
        Kind::Flag => argument.long(word.name).action(ArgAction::SetTrue),
        Kind::Letter(letter) => argument.short(letter).action(ArgAction::SetTrue),
        Kind::Valued => valued(argument, word.name, "N").value_parser(value_parser!(u32)),
        Kind::FewValued => valued(argument, word.name, "N").value_parser(value_parser!(u32).range(
            1..=32,
        )),
        Kind::LongValued => {
            valued(argument, word.name, "N").value_parser(value_parser!(u64).range(1..))
        }
        Kind::Preset(value) => preset(valued(argument, word.name, "N"), value),
        Kind::Path => valued(argument, word.name, "FILE"),
    }
}

// A word after `--` that has a value, which help calls so.
fn valued<'a>(argument: Arg<'a>, name: &'a str, value: &'a str) -> Arg<'a>
    ensures rule { rule_of result ≡ valued_rule name.entry.now (rule_of argument.entry) }
    ensures local { result.global ≡ argument.entry.global }
{
    argument.long(name).value_name(value)
}

// A word whose value is a number of 32 bits from 1, and this one where none is given.
fn preset<'a>(argument: Arg<'a>, value: &'static str) -> Arg<'a>
    ensures rule { rule_of result ≡ preset_rule value.now (rule_of argument.entry) }
    ensures local { result.global ≡ argument.entry.global }
{
    argument
        .value_parser(value_parser!(u32).range(1..=4_294_967_295))
        .num_args(0..=1)
        .default_missing_value(value)
}
