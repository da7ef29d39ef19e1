ghost use Rattle.std.specs.Prelude.{◌≡◌, codes, map, option_map, IfOk, None};
ghost use Rattle.clap.specs.Words.{kind_of, subcommand_rows_of};
ghost use Rattle.pf_arguments.specs.CommandLine.{has_flag, is_named, text_behind, text_behind_run};
ghost use Rattle.pf_arguments.specs.Help.{topic_asked};
ghost use Rattle.pf_arguments.specs.Asked.{IsAsked, IsRequest, IsSound, IsSoundRequest, ShowsError, cell_given, check_of, fail_on_given, file_found, file_of, format_celled, format_found, format_of, format_wrapped, format_or_tables, name_of, number_given, range_given, range_mistake, style_given, task_of, wrap_given};

use crate::command_line::program;
use crate::conversion_words::read_convert;
use crate::desk_words::read_desk;
use crate::diff_words::{are_two, read_diff, read_pair};
use crate::fit_words::read_fit;
use crate::mistake::Mistake;
use crate::mistakes::text::mistake_text;
use crate::request::{Request, WordsFault};
use crate::run_words::read_run;
use crate::task::Task;
use crate::telling_words::{any_text, read_telling};
use crate::texts::{help_text, refusal_text, version_text};
use crate::topics::topic_asked;
use crate::why_question::read_why;
use clap::ArgMatches;
use clap::error::ErrorKind;
use pf_text::numbers::parse_number;
use pf_vocabulary::look::cell::Cell;
use pf_vocabulary::look::style::Style;
use pf_vocabulary::look::wrap::Wrap;
use pf_vocabulary::options::fail_on::FailOn;
use pf_vocabulary::options::format::Format;
use pf_vocabulary::options::slot_range::SlotRange;
use std::alloc::{AllocError, Global};
use std::convert::AsStr;

/// What the program's words ask for, its own name not among them. No words ask for a run with tables, and so does `run`
/// alone; `run --format NAME` asks for one in the format of that name, of the slots from `--from` on and below `--to`, in
/// slots of the width `--cell`, in blocks of `--wrap` slots and in the style `--style`, of the tasks of `--task` alone, to fail on
/// what `--fail-on` lists, and `check` for a check, and with `--run` for one that carries the script out too. A file may stand after each, for the script to be read from; `-` is standard input, as no file is.
/// `diff` asks what the records from `--since` on changed, and with a second file what differs between both scripts, of which one
/// may be standard input; with their sums first by `--summary`, and a status that tells of a difference by `--exit-code`. `drill`
/// asks for a drill of standard input. `convert` asks for a list of tasks to be converted, in the quanta of `--quantum`, and
/// `why` asks of a slot. `fit` asks whether the script fits, as text or in the format `--format`, and by the words of `convert` whether a list of tasks does. `desk` asks for a session,
/// after a script or none, with answers in JSON by `--json` and a journal by `--journal`. `help` and the name of a topic ask for its
/// text. Answers
/// `Refused` where the words are not the program's, `Mistaken` where the text of
/// `--format` names no format, where that of `--from` or `--to` is no number, where the format has no range, where the text of
/// `--cell` is no number of 6 to 40, `--wrap` no number of 1 to 4096 or `--style` no style, where the format has none of these,
/// where the text of `--task` is no list of tasks or the format can't show some alone, and where the text of `--fail-on` is no list of what a run may fail on, the first of these, and where the text of `--since` is
/// no number above 0, where it stands beside two scripts, or both of these are standard input, the first of these, and the first
/// word of a conversion, of a fit, or of what is asked of a slot, that is not as it has to be; and `NoMemory`, in place of any answer, where memory was refused.
pub fn read_words<S: AsStr>(alloc: Global, words: &[S]) -> Result<Request, WordsFault>
    ensures asked { IsAsked (map S.text words.now) result }
    ensures sound { IfOk result IsSoundRequest }
{
    match topic_asked(words) {
        Some(text) => Ok(Request::Show(String::from_str(alloc, text)?)),
        None => read_by_grammar(alloc, words),
    }
}

/// What words ask for that ask for no topic of help.
fn read_by_grammar<S: AsStr>(alloc: Global, words: &[S]) -> Result<Request, WordsFault>
    ensures asked { topic_asked (map S.text words.now) ≡ None → IsAsked (map S.text words.now) result }
    ensures sound { IfOk result IsSoundRequest }
{
    match program(alloc)?.try_get_matches_from(words) {
        Ok(matches) => read_matches(alloc, &matches),
        Err(error) => read_error(alloc, &error, words),
    }
}

/// What words ask for that the grammar takes.
fn read_matches(alloc: Global, matches: &ArgMatches<'_>) -> Result<Request, WordsFault>
    ensures request { IsRequest (subcommand_rows_of matches.now) result }
    ensures sound { IfOk result IsSoundRequest }
{
    let telling = read_telling(matches);
    if are_two(matches) {
        return Ok(Request::Compare(read_pair(alloc, matches)?, telling));
    }
    if is_asked(matches, "desk") {
        return Ok(Request::Sit(read_desk(alloc, matches)?));
    }
    match read_task(alloc, matches)? {
        Ok(task) => Ok(Request::Do(task, read_file(alloc, matches)?, telling)),
        Err(mistake) => Err(WordsFault::Mistaken(mistake_text(alloc, matches, mistake)?)),
    }
}

/// What they ask to be done with a script.
///
/// # Errors
///
/// Where memory is refused.
fn read_task(alloc: Global, matches: &ArgMatches<'_>) -> Result<Result<Task, Mistake>, AllocError>
    ensures task { IfOk result (λ task. task ≡ task_of (subcommand_rows_of matches.now)) }
    ensures sound { IfOk result (λ task. IfOk task IsSound) }
{
    if is_asked(matches, "drill") {
        return Ok(Ok(Task::Drill));
    }
    if is_asked(matches, "check") {
        return Ok(Ok(read_check(matches)));
    }
    if is_asked(matches, "diff") {
        return Ok(read_diff(matches));
    }
    if is_asked(matches, "convert") {
        return Ok(read_convert(matches));
    }
    if is_asked(matches, "why") {
        return Ok(read_why(matches));
    }
    if is_asked(matches, "fit") {
        return Ok(read_fit(matches));
    }
    read_run(alloc, matches)
}

/// A check, which may carry the script out too.
fn read_check(matches: &ArgMatches<'_>) -> Task
    ensures task { result ≡ check_of (subcommand_rows_of matches.now) }
    ensures sound { IsSound result }
{
    if has_flag(matches, "check", "run") {
        return Task::CheckRun;
    }
    Task::Check
}

/// The file after a subcommand; none where standard input is meant, and for a drill.
pub(crate) fn read_file(
    alloc: Global,
    matches: &ArgMatches<'_>,
) -> Result<Option<String>, AllocError>
    ensures { IfOk result (λ file. name_of file ≡ file_found (subcommand_rows_of matches.now)) }
{
    if is_asked(matches, "drill") {
        return Ok(None);
    }
    owned_name(alloc, any_text(matches, "file"))
}

/// The file of this name; none where there is no name, or where it is `-`, which is standard input.
pub(crate) fn owned_name(alloc: Global, name: Option<&str>) -> Result<Option<String>, AllocError>
    ensures { IfOk result (λ file. name_of file ≡ file_of (option_map (λ text. text.now) name.entry)) }
{
    let Some(name) = name else {
        return Ok(None);
    };
    if name == "-" {
        return Ok(None);
    }
    Ok(Some(String::from_str(alloc, name)?))
}

/// Whether they ask for the subcommand of this name.
pub(crate) fn is_asked(matches: &ArgMatches<'_>, name: &str) -> bool
    ensures { result ≡ is_named name.now (subcommand_rows_of matches.now) }
{
    matches.subcommand_matches(name).is_some()
}

/// The format of a run, of the slots and in the look that they ask for.
pub(crate) fn read_format(matches: &ArgMatches<'_>) -> Result<Format, Mistake>
    ensures { result ≡ format_of (subcommand_rows_of matches.now) }
{
    let format = read_wrapped(matches)?;
    let Some(style) = read_style(matches)? else {
        return Ok(format);
    };
    match format.with_style(style) {
        Some(format) => Ok(format),
        None => Err(Mistake::NoStyle),
    }
}

/// The format of a run, of the slots, of the width and in the blocks that they ask for.
fn read_wrapped(matches: &ArgMatches<'_>) -> Result<Format, Mistake>
    ensures { result ≡ format_wrapped (subcommand_rows_of matches.now) }
{
    let format = read_celled(matches)?;
    let Some(wrap) = read_wrap(matches)? else {
        return Ok(format);
    };
    match format.with_wrap(wrap) {
        Some(format) => Ok(format),
        None => Err(Mistake::NoWrap),
    }
}

/// The format of a run, of the slots and of the width that they ask for.
fn read_celled(matches: &ArgMatches<'_>) -> Result<Format, Mistake>
    ensures { result ≡ format_celled (subcommand_rows_of matches.now) }
{
    let format = read_ranged(matches)?;
    let Some(cell) = read_cell(matches)? else {
        return Ok(format);
    };
    match format.with_cell(cell) {
        Some(format) => Ok(format),
        None => Err(Mistake::NoCell),
    }
}

/// The format of a run, of the slots that they ask for.
fn read_ranged(matches: &ArgMatches<'_>) -> Result<Format, Mistake>
    ensures { result ≡ format_found (subcommand_rows_of matches.now) }
{
    let Some(format) = read_name(matches) else {
        return Err(Mistake::UnknownFormat);
    };
    match format.within(read_range(matches)?) {
        Some(format) => Ok(format),
        None => Err(range_mistake(format)),
    }
}

/// What is told where a range is asked of a format that has none.
fn range_mistake(format: Format) -> Mistake
    ensures { result ≡ range_mistake format }
{
    match format {
        Format::Jobs | Format::Trace | Format::C | Format::Full | Format::Html => Mistake::Unranged,
        _ => Mistake::NoRange,
    }
}

/// The format of all slots; none where the text of `--format` names none.
fn read_name(matches: &ArgMatches<'_>) -> Option<Format>
    ensures { result ≡ format_or_tables (text_behind_run (codes "format") (subcommand_rows_of matches.now)) }
{
    match option_text(matches, "run", "format") {
        Some(name) => Format::named(name),
        None => Some(Format::Tables),
    }
}

/// The range of a run.
fn read_range(matches: &ArgMatches<'_>) -> Result<SlotRange, Mistake>
    ensures { result ≡ range_given (number_given (text_behind_run (codes "from") (subcommand_rows_of matches.now)))
        (number_given (text_behind_run (codes "to") (subcommand_rows_of matches.now))) }
{
    let from = read_number(matches, "from")?;
    let to = read_number(matches, "to")?;
    Ok(SlotRange { from, to })
}

/// The width of a slot; none where `--cell` is left out.
fn read_cell(matches: &ArgMatches<'_>) -> Result<Option<Cell>, Mistake>
    ensures { result ≡ cell_given (text_behind_run (codes "cell") (subcommand_rows_of matches.now)) }
{
    let Some(text) = option_text(matches, "run", "cell") else {
        return Ok(None);
    };
    let Some(width) = parse_number(text.as_bytes()) else {
        return Err(Mistake::BadCell);
    };
    match Cell::new(width) {
        Some(cell) => Ok(Some(cell)),
        None => Err(Mistake::BadCell),
    }
}

/// How many slots stand side by side; none where `--wrap` is left out.
fn read_wrap(matches: &ArgMatches<'_>) -> Result<Option<Wrap>, Mistake>
    ensures { result ≡ wrap_given (text_behind_run (codes "wrap") (subcommand_rows_of matches.now)) }
{
    let Some(text) = option_text(matches, "run", "wrap") else {
        return Ok(None);
    };
    let Some(slots) = parse_number(text.as_bytes()) else {
        return Err(Mistake::BadWrap);
    };
    match Wrap::new(slots) {
        Some(wrap) => Ok(Some(wrap)),
        None => Err(Mistake::BadWrap),
    }
}

/// How the tasks are drawn; none where `--style` is left out.
fn read_style(matches: &ArgMatches<'_>) -> Result<Option<Style>, Mistake>
    ensures { result ≡ style_given (text_behind_run (codes "style") (subcommand_rows_of matches.now)) }
{
    let Some(name) = option_text(matches, "run", "style") else {
        return Ok(None);
    };
    match Style::named(name) {
        Some(style) => Ok(Some(style)),
        None => Err(Mistake::BadStyle),
    }
}

/// What the run is to fail on; nothing where `--fail-on` is left out.
pub(crate) fn read_fail_on(matches: &ArgMatches<'_>) -> Result<FailOn, Mistake>
    ensures { result ≡ fail_on_given (text_behind_run (codes "fail-on") (subcommand_rows_of matches.now)) }
{
    let Some(list) = option_text(matches, "run", "fail-on") else {
        return Ok(FailOn::nothing());
    };
    match FailOn::named(list) {
        Some(fail_on) => Ok(fail_on),
        None => Err(Mistake::BadFailOn),
    }
}

/// The number that is the text of an option after `run`; none where it is left out.
fn read_number(matches: &ArgMatches<'_>, option: &str) -> Result<Option<u64>, Mistake>
    ensures { result ≡ number_given (text_behind_run option.now (subcommand_rows_of matches.now)) }
{
    let Some(text) = option_text(matches, "run", option) else {
        return Ok(None);
    };
    match parse_number(text.as_bytes()) {
        Some(number) => Ok(Some(number)),
        None => Err(Mistake::BadNumber),
    }
}

/// Whether a flag stands after the subcommand of this name.
pub(crate) fn has_flag(matches: &ArgMatches<'_>, name: &str, flag: &str) -> bool
    ensures { result ≡ has_flag name.now flag.now (subcommand_rows_of matches.now) }
{
    match option_text(matches, name, flag) {
        Some(text) => text == "true",
        None => false,
    }
}

/// The text of an option after the subcommand of this name.
pub(crate) fn option_text<'a>(matches: &ArgMatches<'a>, name: &str, option: &str) -> Option<&'a str>
    ensures { option_map (λ text. text.now) result ≡ text_behind name.now option.now (subcommand_rows_of matches.now) }
{
    matches.subcommand_matches(name)?.get_str(option)
}

/// What words ask for that the grammar does not take: help, the version, or nothing.
fn read_error<S: AsStr>(
    alloc: Global,
    error: &clap::Error,
    words: &[S],
) -> Result<Request, WordsFault>
    ensures { ShowsError (map S.text words.now) (kind_of error.now) result }
{
    let kind = error.kind();
    if kind == ErrorKind::OutOfMemory {
        return Err(WordsFault::NoMemory);
    }
    if kind == ErrorKind::DisplayHelp {
        return Ok(Request::Show(help_text(alloc, error, words)?));
    }
    if kind == ErrorKind::DisplayVersion {
        return Ok(Request::Show(version_text(alloc)?));
    }
    Err(WordsFault::Refused(refusal_text(alloc, error, words)?))
}
