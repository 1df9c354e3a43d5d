// The words of the command.
ghost use Rattle.std.specs.Prelude.{◌≡◌, false, IfOk, IfSome, option_map, codes};
ghost use Rattle.clap.specs.Matches.{found_of, first_value};
ghost use Rattle.clap.specs.Simple.{app_of};
ghost use Rattle.clap.specs.Walk.{rule_of};
ghost use Rattle.command_line.specs.Texts.{texts};
ghost use Rattle.why_words.specs.Question.{why, name_rule, column_rule, row_rule, frame_rule, points_rule, question_by, question_of, question_view};
ghost use Rattle.why_words.specs.Ranges.{LiesInRanges};

use clap::builder::ValueParser;
use clap::error::ErrorKind;
use clap::{Arg, ArgAction, ArgMatches, Command};
use command_line::{is_set, number_in};
use fixed_math::NoMemory;
use std::alloc::{AllocError, Global};

/// Which pixel is asked about, and how much is told of it.
#[derive(Clone, Copy)]
pub struct Question<'a> {
    /// The name of the scene's file.
    pub name: &'a str,
    /// The column of the pixel in its picture, 0 to 4,095.
    pub x: u32,
    /// The row of the pixel, 0 to 4,095.
    pub y: u32,
    /// Which of the scene's frames, 0 to 999, from 0.
    pub frame: u32,
    /// Whether the corners of the micropolygons are told.
    pub points: bool,
}

fn name_arg<'a>(alloc: Global) -> Arg<'a>
    ensures rule { rule_of result ≡ name_rule }
    ensures local { result.global ≡ false }
{
    Arg::new(alloc, "name").required(true)
}

// The column of the pixel.
fn column_arg<'a>(alloc: Global) -> Arg<'a>
    ensures rule { rule_of result ≡ column_rule }
    ensures local { result.global ≡ false }
{
    Arg::new(alloc, "x")
        .required(true)
        .value_parser(ValueParser::Unsigned(0, 4095))
}

// The row of the pixel.
fn row_arg<'a>(alloc: Global) -> Arg<'a>
    ensures rule { rule_of result ≡ row_rule }
    ensures local { result.global ≡ false }
{
    Arg::new(alloc, "y")
        .required(true)
        .value_parser(ValueParser::Unsigned(0, 4095))
}

// Which of the scene's frames.
fn frame_arg<'a>(alloc: Global) -> Arg<'a>
    ensures rule { rule_of result ≡ frame_rule }
    ensures local { result.global ≡ false }
{
    Arg::new(alloc, "frame")
        .long("frame")
        .value_parser(ValueParser::Unsigned(0, 999))
        .default_value("0")
}

fn points_arg<'a>(alloc: Global) -> Arg<'a>
    ensures rule { rule_of result ≡ points_rule }
    ensures local { result.global ≡ false }
{
    Arg::new(alloc, "points")
        .long("points")
        .action(ArgAction::SetTrue)
}

// The command `why NAME X Y [--frame F] [--points]`.
fn parser<'a>(alloc: Global) -> Result<Command<'a>, AllocError>
    ensures { IfOk result (λ c. app_of c ≡ why) }
{
    Command::new(alloc, "why")
        .arg(name_arg(alloc))?
        .arg(column_arg(alloc))?
        .arg(row_arg(alloc))?
        .arg(frame_arg(alloc))?
        .arg(points_arg(alloc))
}

// The question among the words that clap found.
fn question_found<'a>(matches: &ArgMatches<'a>) -> Option<Question<'a>>
    ensures question { option_map question_view result ≡ question_by (first_value (found_of matches.now)) }
    ensures ranges { IfSome result LiesInRanges }
{
    Some(Question {
        name: matches.get_str("name")?,
        x: number_in(0, 4095, matches.get_str("x")?)?,
        y: number_in(0, 4095, matches.get_str("y")?)?,
        frame: number_in(0, 999, matches.get_str("frame")?)?,
        points: is_set(matches.get_str("points")),
    })
}

/// What the words ask, where they are in order: `why NAME X Y [--frame F] [--points]`, without its first word. NAME names a scene's
/// file; X and Y are the pixel's column and row in the picture, 0 to 4,095; F, 0 to 999, tells which of the scene's frames, from 0, the first
/// where it isn't given.
pub fn question_in<'a>(
    alloc: Global,
    words: &'a [&'a str],
) -> Result<Option<Question<'a>>, NoMemory>
    ensures question { IfOk result (λ q. option_map question_view q ≡ question_of (texts words.now)) }
    ensures ranges { IfOk result (λ q. IfSome q LiesInRanges) }
{
    let Ok(parser) = parser(alloc) else {
        return Err(NoMemory);
    };
    match parser.try_get_matches_from(words) {
        Ok(matches) => Ok(question_found(&matches)),
        Err(error) if error.kind() == ErrorKind::OutOfMemory => Err(NoMemory),
        Err(_) => Ok(None),
    }
}
