// The words of the command.
ghost use Rattle.std.specs.Prelude.{◌≡◌, ◌≤◌, false, IfOk, IfSome, option_map, option_and_then, codes};
ghost use Rattle.std.specs.List.{list_all};
ghost use Rattle.clap.specs.Matches.{found_of, first_value};
ghost use Rattle.clap.specs.Simple.{app_of};
ghost use Rattle.clap.specs.Walk.{rule_of};
ghost use Rattle.command_line.specs.Command.{reyes, action_rule, name_rule, bucket_rule, grid_points_rule, stats_rule, part_rule, of_rule, number_in, is_set, is_digit, patches_named};
ghost use Rattle.command_line.specs.Command.{demo_command, file_command, part_command, join_command, scene_command, options_for, parts_for, command_named, command_by, command_of, command_view, scene_view};
ghost use Rattle.command_line.specs.Ranges.{LieInRanges, IsInRange, IsInParts};
ghost use Rattle.command_line.specs.Texts.{texts};

use crate::patch_count::PatchCount;
use clap::builder::ValueParser;
use clap::error::ErrorKind;
use clap::{Arg, ArgAction, ArgMatches};
use fixed_math::NoMemory;
use std::alloc::{AllocError, Global};

/// What is done with a scene.
#[derive(Clone, Copy)]
pub enum Action {
    /// Its frames are drawn.
    Render,
    /// It is read to its end, and nothing is written.
    Check,
    /// A part of each of its frames is drawn: of so many parts the one of that number, from 0. It is below the count, which is at most 256.
    Part { part: u32, count: u32 },
}

/// The options of a command.
#[derive(Clone, Copy)]
pub struct RunOptions {
    /// The side of a bucket in pixels, 4 to 64.
    pub bucket: u32,
    /// The most points of the grids that are held shaded at one time, 289 to 1,000,000.
    pub grid_points: u32,
    /// Whether a note tells of each frame how much was done.
    pub stats: bool,
}

/// Where a scene comes from.
#[derive(Drop)]
pub enum Source<'a> {
    /// The file of this name.
    File(&'a str),
    /// The demonstration scene.
    Demo(PatchCount),
}

/// What is done with a scene.
#[derive(Drop)]
pub struct SceneCommand<'a> {
    pub action: Action,
    pub source: Source<'a>,
    pub options: RunOptions,
}

/// Parts that are joined.
#[derive(Clone, Copy)]
pub struct JoinCommand<'a> {
    /// The name of the picture.
    pub name: &'a str,
    /// How many parts there are, 1 to 256.
    pub count: u32,
}

/// What a command asks for.
#[derive(Drop)]
pub enum Command<'a> {
    /// Something is done with a scene.
    Scene(SceneCommand<'a>),
    /// Parts are joined.
    Join(JoinCommand<'a>),
}

/// The options that tell of parts, where they are given.
#[derive(Clone, Copy)]
struct PartOptions {
    /// The number of a part, 0 to 255.
    part: Option<u32>,
    /// How many parts there are, 1 to 256.
    of: Option<u32>,
}

fn action_arg<'a>(alloc: Global) -> Arg<'a>
    ensures rule { rule_of result ≡ action_rule }
    ensures local { result.global ≡ false }
{
    Arg::new(alloc, "action").required(true)
}

fn name_arg<'a>(alloc: Global) -> Arg<'a>
    ensures rule { rule_of result ≡ name_rule }
    ensures local { result.global ≡ false }
{
    Arg::new(alloc, "name").required(true)
}

// The side of a bucket in pixels.
fn bucket_arg<'a>(alloc: Global) -> Arg<'a>
    ensures rule { rule_of result ≡ bucket_rule }
    ensures local { result.global ≡ false }
{
    Arg::new(alloc, "bucket")
        .long("bucket")
        .value_parser(ValueParser::Unsigned(4, 64))
        .default_value("16")
}

// The most points of the grids that are held shaded at one time.
fn grid_points_arg<'a>(alloc: Global) -> Arg<'a>
    ensures rule { rule_of result ≡ grid_points_rule }
    ensures local { result.global ≡ false }
{
    Arg::new(alloc, "grid-points")
        .long("grid-points")
        .value_parser(ValueParser::Unsigned(289, 1000000))
        .default_value("65536")
}

fn stats_arg<'a>(alloc: Global) -> Arg<'a>
    ensures rule { rule_of result ≡ stats_rule }
    ensures local { result.global ≡ false }
{
    Arg::new(alloc, "stats")
        .long("stats")
        .action(ArgAction::SetTrue)
}

// The number of a part.
fn part_arg<'a>(alloc: Global) -> Arg<'a>
    ensures rule { rule_of result ≡ part_rule }
    ensures local { result.global ≡ false }
{
    Arg::new(alloc, "part")
        .long("part")
        .value_parser(ValueParser::Unsigned(0, 255))
}

// How many parts there are.
fn of_arg<'a>(alloc: Global) -> Arg<'a>
    ensures rule { rule_of result ≡ of_rule }
    ensures local { result.global ≡ false }
{
    Arg::new(alloc, "of")
        .long("of")
        .value_parser(ValueParser::Unsigned(1, 256))
}

// The command `reyes ACTION NAME [--bucket B] [--grid-points G] [--stats] [--part K] [--of N]`.
fn parser<'a>(alloc: Global) -> Result<clap::Command<'a>, AllocError>
    ensures { IfOk result (λ c. app_of c ≡ reyes) }
{
    clap::Command::new(alloc, "reyes")
        .arg(action_arg(alloc))?
        .arg(name_arg(alloc))?
        .arg(bucket_arg(alloc))?
        .arg(grid_points_arg(alloc))?
        .arg(stats_arg(alloc))?
        .arg(part_arg(alloc))?
        .arg(of_arg(alloc))
}

/// The number that a text writes, where it is one in this range.
pub fn number_in(low: u32, high: u32, text: &str) -> Option<u32>
    ensures number { result ≡ number_in low high text.now }
    ensures within { IfSome result (λ n. (low ≤ n) × (n ≤ high)) }
{
    match text.parse::<u32>() {
        Ok(number) if low <= number && number <= high => Some(number),
        _ => None,
    }
}

// The number that a text writes, where there is one.
fn number_given(low: u32, high: u32, text: Option<&str>) -> Option<u32>
    ensures number { result ≡ option_and_then (number_in low high) (option_map (λ t. t.now) text.entry) }
    ensures within { IfSome result (λ n. (low ≤ n) × (n ≤ high)) }
{
    number_in(low, high, text?)
}

/// Whether a flag is set, by the text of its value.
pub fn is_set(text: Option<&str>) -> bool
    ensures { result ≡ is_set (option_map (λ t. t.now) text.entry) }
{
    match text {
        Some(text) => text == "true",
        None => false,
    }
}

// The options among the words that clap found.
fn options_found(matches: &ArgMatches<'_>) -> Option<RunOptions>
    ensures options { result ≡ options_for (first_value (found_of matches.now) (codes "bucket")) (first_value (found_of matches.now) (codes "grid-points")) (first_value (found_of matches.now) (codes "stats")) }
    ensures ranges { IfSome result LieInRanges }
{
    Some(RunOptions {
        bucket: number_in(4, 64, matches.get_str("bucket")?)?,
        grid_points: number_in(289, 1000000, matches.get_str("grid-points")?)?,
        stats: is_set(matches.get_str("stats")),
    })
}

// The options of parts among the words that clap found.
fn parts_found(matches: &ArgMatches<'_>) -> PartOptions
    ensures options { result ≡ parts_for (first_value (found_of matches.now) (codes "part")) (first_value (found_of matches.now) (codes "of")) }
    ensures ranges { IsInParts result }
{
    PartOptions {
        part: number_given(0, 255, matches.get_str("part")),
        of: number_given(1, 256, matches.get_str("of")),
    }
}

fn is_digit(byte: u8) -> bool
    ensures { result ≡ is_digit byte }
{
    byte.is_ascii_digit()
}

fn are_digits(bytes: &[u8]) -> bool
    ensures { result ≡ list_all is_digit bytes.now }
{
    bytes.iter().all(|byte| is_digit(*byte))
}

// The number of patches that a row of digits writes.
fn patches_named(name: &str) -> Option<PatchCount>
    ensures { option_map (λ p. p.count) result ≡ patches_named name.now }
{
    if !are_digits(name.as_bytes()) {
        return None;
    }
    let count = number_in(1, 1000, name)?;
    Some(PatchCount { count })
}

// The command for the demonstration scene, of which a note tells what was done.
fn demo_command<'a>(name: &str, options: RunOptions) -> Option<Command<'a>>
    requires { LieInRanges options }
    ensures command { option_map command_view result ≡ demo_command (patches_named name.now) options }
    ensures ranges { IfSome result (λ c. IsInRange (command_view c)) }
{
    let patches = patches_named(name)?;
    Some(Command::Scene(SceneCommand {
        action: Action::Render,
        source: Source::Demo(patches),
        options: RunOptions {
            stats: true,
            ..options
        },
    }))
}

// The command for a scene in a file.
fn file_command(action: Action, name: &str, options: RunOptions) -> Command<'_>
    ensures { command_view result ≡ file_command action name.now options }
{
    Command::Scene(SceneCommand {
        action,
        source: Source::File(name),
        options,
    })
}

// The command that draws a part of each frame.
fn part_command<'a>(name: &'a str, options: RunOptions, parts: PartOptions) -> Option<Command<'a>>
    requires ranges { LieInRanges options }
    requires parts { IsInParts parts }
    ensures command { option_map command_view result ≡ part_command name.now options parts }
    ensures ranges { IfSome result (λ c. IsInRange (command_view c)) }
{
    let (part, count) = (parts.part?, parts.of?);
    if part < count {
        Some(file_command(Action::Part { part, count }, name, options))
    } else {
        None
    }
}

// The command that joins parts.
fn join_command<'a>(name: &'a str, parts: PartOptions) -> Option<Command<'a>>
    requires { IsInParts parts }
    ensures command { option_map command_view result ≡ join_command name.now parts }
    ensures ranges { IfSome result (λ c. IsInRange (command_view c)) }
{
    match (parts.part, parts.of) {
        (None, Some(count)) => Some(Command::Join(JoinCommand { name, count })),
        _ => None,
    }
}

// The command of an action that knows nothing of parts, where there is such an action.
fn scene_command<'a>(action: &str, name: &'a str, options: RunOptions) -> Option<Command<'a>>
    requires { LieInRanges options }
    ensures command { option_map command_view result ≡ scene_command action.now name.now options }
    ensures ranges { IfSome result (λ c. IsInRange (command_view c)) }
{
    if action == "render" {
        Some(file_command(Action::Render, name, options))
    } else if action == "check" {
        Some(file_command(Action::Check, name, options))
    } else if action == "demo" {
        demo_command(name, options)
    } else {
        None
    }
}

// The command of that action, where there is such an action.
fn command_named<'a>(
    action: &str,
    name: &'a str,
    options: RunOptions,
    parts: PartOptions,
) -> Option<Command<'a>>
    requires ranges { LieInRanges options }
    requires parts { IsInParts parts }
    ensures command { option_map command_view result ≡ command_named action.now name.now options parts }
    ensures ranges { IfSome result (λ c. IsInRange (command_view c)) }
{
    if action == "part" {
        part_command(name, options, parts)
    } else if action == "join" {
        join_command(name, parts)
    } else {
        match (parts.part, parts.of) {
            (None, None) => scene_command(action, name, options),
            _ => None,
        }
    }
}

// The command among the words that clap found.
fn command_found<'a>(matches: &ArgMatches<'a>) -> Option<Command<'a>>
    ensures command { option_map command_view result ≡ command_by (first_value (found_of matches.now)) }
    ensures ranges { IfSome result (λ c. IsInRange (command_view c)) }
{
    let action = matches.get_str("action")?;
    let name = matches.get_str("name")?;
    let options = options_found(matches)?;
    command_named(action, name, options, parts_found(matches))
}

/// What the words ask for, where they are in order; what they choose lies in its ranges.
pub fn command_in<'a>(alloc: Global, words: &'a [&'a str]) -> Result<Option<Command<'a>>, NoMemory>
    ensures command { IfOk result (λ c. option_map command_view c ≡ command_of (texts words.now)) }
    ensures ranges { IfOk result (λ c. IfSome c (λ c. IsInRange (command_view c))) }
{
    let Ok(parser) = parser(alloc) else {
        return Err(NoMemory);
    };
    match parser.try_get_matches_from(words) {
        Ok(matches) => Ok(command_found(&matches)),
        Err(error) if error.kind() == ErrorKind::OutOfMemory => Err(NoMemory),
        Err(_) => Ok(None),
    }
}
