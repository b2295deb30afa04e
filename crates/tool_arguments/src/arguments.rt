//! The command line: its words, and its help.

use crate::asked::request_of;
use crate::bases::is_refused_base;
use crate::requests::Request;
use crate::words::{Verb, Words};
use clap::error::ErrorKind;
use clap::{Arg, ArgAction, ArgGroup, ArgMatches, Command, Error, value_parser};
use desk_lock::MOST_PLACES;
use std::alloc::{AllocError, Global};
use std::convert::AsStr;

/// What the words of `--at` have to be.
const AT_HELP: &str =
    "--at takes the coordinates X Y of a point, whole millimetres at most 100000000000 away from 0";

/// What the word of `--out` has to be.
const OUT_HELP: &str =
    "--out takes a path without its ending, to which .shp and .shx are added, as in new/town";

/// Reads a command line, the program's own name first. A refused one is an error whose text helps; `--help` and
/// `--version` are answered as errors too, with the status 0. The latter prints the program's name and this version.
pub fn parse<'a, S: AsStr>(
    alloc: Global,
    version: &'a str,
    words: &'a [S],
) -> Result<Request<'a>, Error> {
    let mut command = tool_command(alloc, version)?;
    let matches = command.try_get_matches_from_mut(words)?;
    let (verb, given) = match matches.subcommand() {
        Some(("area", given)) => (Verb::Area, given),
        Some(("check", given)) => (Verb::Check, given),
        Some(("export", given)) => (Verb::Export, given),
        Some(("locate", given)) => (Verb::Locate, given),
        Some(("overlay", given)) => (Verb::Overlay, given),
        Some(("part", given)) => (Verb::Part, given),
        Some(("session", given)) => (Verb::Session, given),
        Some(("explain", given)) => (Verb::Explain, given),
        _ => return Err(no_subcommand(&mut command)?),
    };
    let refused = is_refused_out(given);
    if let Some(request) = request_of(alloc, verb, &words_of(given))? {
        if refused {
            return Err(command.error(ErrorKind::ValueValidation, OUT_HELP)?);
        }
        return Ok(request);
    }
    if verb == Verb::Locate {
        return Err(command.error(ErrorKind::ValueValidation, AT_HELP)?);
    }
    Err(no_subcommand(&mut command)?)
}

/// Whether the word of `--out` is none that names a layer.
fn is_refused_out(given: &ArgMatches<'_>) -> bool {
    match given.get_str("out") {
        Some(base) => is_refused_base(base),
        None => false,
    }
}

/// Whether the words ask for hints wherever standard error goes. What stands behind `--` is no option.
pub fn wants_hints<S: AsStr>(words: &[S]) -> bool {
    words
        .iter()
        .take_while(|word| word.as_str() != "--")
        .any(|word| word.as_str() == "--hints")
}

/// The error of a command line that names no command, or too few words of one.
fn no_subcommand(command: &mut Command<'_>) -> Result<Error, AllocError> {
    command.error(
        ErrorKind::MissingSubcommand,
        "a subcommand with its words is required",
    )
}

/// The words of a command, each under its name.
fn words_of<'g, 'a>(given: &'g ArgMatches<'a>) -> Words<'g, 'a> {
    Words {
        main: given.get_str("MAIN"),
        city: given.get_str("CITY"),
        parcels: given.get_str("PARCELS"),
        // Of an overlay the one, of a session the other.
        zones: given.get_str("ZONES").or(given.get_str("zones")),
        districts: given.get_str("DISTRICTS"),
        id: given.get_one("ID"),
        unit: given.get_str("unit"),
        out: given.get_str("out"),
        points: given.get_str("points"),
        journal: given.get_str("journal"),
        workers: given.get_one("workers"),
        all: given.get_flag("all"),
        force: given.get_flag("force"),
        areas: given.get_flag("areas"),
        clerks: given.get_strs("clerk"),
        desks: given.get_strs("desk"),
        code: given.get_strs("CODE"),
        at: given.get_strs("at"),
    }
}

/// What stands below the help: what a run may end with, and where refusals are explained.
const STATUSES: &str =
    "Status 0: done. Status 1: refused; one `error:` line on stderr (see `parcel_tool explain`).\n\
     Status 2: the command line was not understood.";

fn tool_command<'a>(alloc: Global, version: &'a str) -> Result<Command<'a>, AllocError> {
    Command::new(alloc, "parcel_tool")
        .bin_name("parcel_tool")?
        .version(version)
        .about("Exact answers about parcel layers in shapefiles, in whole millimetres")
        .after_help(STATUSES)
        .subcommand_required(true)
        .arg_required_else_help(true)
        .subcommand(area_command(alloc)?)?
        .subcommand(check_command(alloc)?)?
        .subcommand(export_command(alloc)?)?
        .subcommand(locate_command(alloc)?)?
        .subcommand(overlay_command(alloc)?)?
        .subcommand(part_command(alloc)?)?
        .subcommand(session_command(alloc)?)?
        .subcommand(explain_command(alloc)?)?
        .arg(hints(alloc))
}

fn area_command<'a>(alloc: Global) -> Result<Command<'a>, AllocError> {
    Command::new(alloc, "area")
        .about(
            "Prints for each polygon its record's number and twice its area, in square millimetres",
        )
        .arg(file(alloc, "MAIN", "The layer's main file, .shp"))?
        .arg(unit(alloc, "The unit of the file's coordinates"))
}

fn check_command<'a>(alloc: Global) -> Result<Command<'a>, AllocError> {
    Command::new(alloc, "check")
        .about("Checks that parcels tile the city; prints `tiling COUNT TWICE_AREA`")
        .arg(file(alloc, "CITY", "The main file of the city's layer, .shp"))?
        .arg(file(
            alloc,
            "PARCELS",
            "The main file of the parcels' layer, .shp",
        ))?
        .arg(unit(alloc, "The unit of the files' coordinates"))?
        .arg(all(alloc))?
        .arg(clerk(alloc))?
        .arg(worker_count(alloc))
}

/// Whether all faults are told.
fn all<'a>(alloc: Global) -> Arg<'a> {
    Arg::new(alloc, "all")
        .long("all")
        .action(ArgAction::SetTrue)
        .help("Prints a line for every faulty ring or edge, and not only the first")
}

fn export_command<'a>(alloc: Global) -> Result<Command<'a>, AllocError> {
    Command::new(alloc, "export")
        .about(
            "Writes, where parcels tile their city, their layer anew, in millimetres, and prints their number",
        )
        .arg(file(alloc, "CITY", "The main file of the city's layer, .shp"))?
        .arg(file(
            alloc,
            "PARCELS",
            "The main file of the parcels' layer, .shp",
        ))?
        .arg(unit(alloc, "The unit of the files' coordinates"))?
        .arg(base(alloc, "The files that are written: BASE.shp and BASE.shx"))?
        .arg(force(alloc))?
        .arg(clerk(alloc))?
        .arg(worker_count(alloc))
}

fn locate_command<'a>(alloc: Global) -> Result<Command<'a>, AllocError> {
    Command::new(alloc, "locate")
        .about("Prints for each point which parcels have it inside or on an edge")
        .arg(file(alloc, "CITY", "The main file of the city's layer, .shp"))?
        .arg(file(
            alloc,
            "PARCELS",
            "The main file of the parcels' layer, .shp",
        ))?
        .arg(unit(alloc, "The unit of the files' coordinates"))?
        .arg(at(alloc))?
        .arg(points_file(alloc))?
        .arg(clerk(alloc))?
        .arg(worker_count(alloc))?
        .group(asked(alloc)?)
}

fn overlay_command<'a>(alloc: Global) -> Result<Command<'a>, AllocError> {
    Command::new(alloc, "overlay")
        .about(
            "Prints which parcels and which zones overlap, and which parcels are within one zone",
        )
        .arg(file(alloc, "CITY", "The main file of the city's layer, .shp"))?
        .arg(file(
            alloc,
            "PARCELS",
            "The main file of the parcels' layer, .shp",
        ))?
        .arg(file(alloc, "ZONES", "The main file of the zones' layer, .shp"))?
        .arg(unit(alloc, "The unit of the files' coordinates"))?
        .arg(areas(alloc))?
        .arg(clerk(alloc))?
        .arg(worker_count(alloc))
}

/// Whether areas in zones are told, too.
fn areas<'a>(alloc: Global) -> Arg<'a> {
    Arg::new(alloc, "areas")
        .long("areas")
        .action(ArgAction::SetTrue)
        .help("Prints for each pair twice the area of the parcel in the zone, too")
}

fn part_command<'a>(alloc: Global) -> Result<Command<'a>, AllocError> {
    Command::new(alloc, "part")
        .about(
            "Writes, where districts tile their city, one of them or each as a city of its own, and prints twice its \
             area",
        )
        .arg(file(alloc, "CITY", "The main file of the city's layer, .shp"))?
        .arg(file(
            alloc,
            "DISTRICTS",
            "The main file of the layer of all districts, .shp",
        ))?
        .arg(record_number(alloc))?
        .arg(all_districts(alloc))?
        .arg(unit(alloc, "The unit of the files' coordinates"))?
        .arg(base(
            alloc,
            "The files that are written: BASE.shp and BASE.shx, or with --all BASE-ID.shp and BASE-ID.shx of each",
        ))?
        .arg(force(alloc))?
        .arg(worker_count(alloc))?
        .group(districts(alloc)?)
}

/// Which districts are written, which has to be said in one way.
fn districts<'a>(alloc: Global) -> Result<ArgGroup<'a>, AllocError> {
    let group = ArgGroup::new(alloc, "districts").required(true);
    group.arg("ID")?.arg("all")
}

/// Whether all districts are written.
fn all_districts<'a>(alloc: Global) -> Arg<'a> {
    Arg::new(alloc, "all")
        .long("all")
        .action(ArgAction::SetTrue)
        .help("Writes every district, by ascending number")
}

/// The number of a record.
fn record_number<'a>(alloc: Global) -> Arg<'a> {
    Arg::new(alloc, "ID")
        .action(ArgAction::Set)
        .value_parser(value_parser!(u64))
        .help("The number of the district's record, from 1")
}

fn session_command<'a>(alloc: Global) -> Result<Command<'a>, AllocError> {
    Command::new(alloc, "session")
        .about(
            "Keeps parcels that tile their city open, and answers edits and questions line by line",
        )
        .arg(file(alloc, "CITY", "The main file of the city's layer, .shp"))?
        .arg(file(
            alloc,
            "PARCELS",
            "The main file of the parcels' layer, .shp",
        ))?
        .arg(unit(alloc, "The unit of the files' coordinates"))?
        .arg(zones_option(alloc))?
        .arg(journal(alloc))?
        .arg(first_edits(alloc))?
        .arg(desk(alloc))?
        .arg(worker_count(alloc))
}

fn explain_command<'a>(alloc: Global) -> Result<Command<'a>, AllocError> {
    Command::new(alloc, "explain")
        .about(
            "Says what a code of a refusal means, what usually causes it, and what to do; without one, lists all codes",
        )
        .arg(
            Arg::new(alloc, "CODE")
                .action(ArgAction::Append)
                .num_args(0..)
                // Of the text of a refusal, as `net -1`.
                .allow_negative_numbers(true)
                .help("The code as it was printed: `F9 C2`, `H2`, `no memory`"),
        )
}

/// Whether a hint stands behind a refusal wherever standard error goes.
fn hints<'a>(alloc: Global) -> Arg<'a> {
    Arg::new(alloc, "hints")
        .long("hints")
        .global(true)
        .action(ArgAction::SetTrue)
        .help(
            "Prints a line `hint: ..` behind a refusal, as it does where standard error is a terminal",
        )
}

/// The zones, where overlays are asked for.
fn zones_option<'a>(alloc: Global) -> Arg<'a> {
    Arg::new(alloc, "zones")
        .long("zones")
        .action(ArgAction::Set)
        .value_name("ZONES")
        .help("The main file of the zones' layer, .shp")
}

/// The journal of accepted edits.
fn journal<'a>(alloc: Global) -> Arg<'a> {
    Arg::new(alloc, "journal")
        .long("journal")
        .action(ArgAction::Set)
        .value_name("FILE")
        .help("Journal file: its edits are replayed, new ones are appended")
}

/// The clerk's file with which a journal begins.
fn first_edits<'a>(alloc: Global) -> Arg<'a> {
    Arg::new(alloc, "clerk")
        .long("clerk")
        .action(ArgAction::Set)
        .value_name("FILE")
        .help("A clerk's file, whose edits come first; a new journal begins with them")
}

/// The desks. How many they may be is asked before the first is opened, and not here.
fn desk<'a>(alloc: Global) -> Arg<'a> {
    Arg::new(alloc, "desk")
        .long("desk")
        .action(ArgAction::Append)
        .value_name("NAME")
        .help("A desk, with the named pipes NAME.in and NAME.out; up to 8, all at the same time")
}

/// How many threads share the work.
fn worker_count<'a>(alloc: Global) -> Arg<'a> {
    Arg::new(alloc, "workers")
        .long("workers")
        .action(ArgAction::Set)
        .value_name("N")
        .value_parser(value_parser!(usize).range(1..=64))
        .help("How many threads share the work, from 1 to 64 [default: one for each processor]")
}

/// The points, which have to be given in one way.
fn asked<'a>(alloc: Global) -> Result<ArgGroup<'a>, AllocError> {
    let group = ArgGroup::new(alloc, "asked").required(true);
    group.arg("at")?.arg("points")
}

/// A point, which may be given as often as wanted.
fn at<'a>(alloc: Global) -> Arg<'a> {
    Arg::new(alloc, "at")
        .long("at")
        .action(ArgAction::Append)
        .num_args(2)
        .value_names(&["X", "Y"])
        .allow_negative_numbers(true)
        .help("A point, in whole millimetres")
}

/// The file of points.
fn points_file<'a>(alloc: Global) -> Arg<'a> {
    Arg::new(alloc, "points")
        .long("points")
        .action(ArgAction::Set)
        .value_name("FILE")
        .help("A file with a line X Y for each point, in whole millimetres; - reads standard input")
}

// The help of `--clerk` writes this number.
const _: () = prove!(MOST_PLACES == 8);

/// The files of clerks' edits. How many they may be is asked before the first is opened, and not here.
fn clerk<'a>(alloc: Global) -> Arg<'a> {
    Arg::new(alloc, "clerk")
        .long("clerk")
        .action(ArgAction::Append)
        .value_name("FILE")
        .help(
            "A file of a clerk's edits, which are made first; up to 8, all clerks at the same time",
        )
}

/// Where a layer is written, which has to be given.
fn base<'a>(alloc: Global, help: &'a str) -> Arg<'a> {
    Arg::new(alloc, "out")
        .long("out")
        .required(true)
        .action(ArgAction::Set)
        .value_name("BASE")
        .help(help)
}

/// Whether what goes with the layer that stood there is removed.
fn force<'a>(alloc: Global) -> Arg<'a> {
    Arg::new(alloc, "force")
        .long("force")
        .action(ArgAction::SetTrue)
        .help(
            "Removes what a GIS reads with BASE.shp, as BASE.dbf, .prj and .qix of an older layer; without it, they \
             are refused",
        )
}

/// A layer's main file, which has to be given.
fn file<'a>(alloc: Global, name: &'a str, help: &'a str) -> Arg<'a> {
    Arg::new(alloc, name)
        .required(true)
        .action(ArgAction::Set)
        .help(help)
}

/// The unit, which has to be given.
fn unit<'a>(alloc: Global, help: &'a str) -> Arg<'a> {
    Arg::new(alloc, "unit")
        .long("unit")
        .required(true)
        .action(ArgAction::Set)
        .value_name("UNIT")
        .value_parser(["mm", "cm", "m"].as_slice())
        .help(help)
}
