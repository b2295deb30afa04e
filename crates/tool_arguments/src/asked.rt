//! What the words of a command line ask for.

ghost use Rattle.std.specs.Prelude.{◌≡◌, List, map, IfOk, IfErr, IfSome, IfNone};
ghost use Rattle.geo_exact.specs.declared.corner.Corner.{Corner};
ghost use Rattle.geo_exact.specs.declared.coord.Unit.{Unit as LengthUnit};
ghost use Rattle.line_files.specs.TextNumbers.{AreCornerWords};
ghost use Rattle.line_files.specs.declared.grids.Grid.TheVariants.{Millimetres};
ghost use Rattle.tool_arguments.specs.Arguments.{IsUnit, IsNoUnit, AreWorkers, IsNoWorkerCount, IsBeyondWorkers};
ghost use Rattle.tool_arguments.specs.Requests.{AreInputs, HasNoInputs, AreDistrictWords, HasNoDistricts};
ghost use Rattle.tool_arguments.specs.Requests.{AreWanted, IsNoChoice, ArePoints, HasNoPoints, IsRequest};
ghost use Rattle.tool_arguments.specs.Requests.{IsMissing, MayHaveWorkers, verb_of, given, first_of};

use crate::requests::{Districts, Inputs, Points, Request, Session, Wanted, Workers};
use crate::words::{Verb, Words};
use geo_exact::{Corners, Unit};
use line_files::read_corner;
use overlay_work::MOST_HANDS;
use std::alloc::{AllocError, Global};

/// What the words ask for; `None` where one is missing, or is none that there may be.
///
/// # Errors
///
/// [`AllocError`] where an allocation fails.
pub fn request_of<'a>(
    alloc: Global,
    verb: Verb,
    words: &Words<'_, 'a>,
) -> Result<Option<Request<'a>>, AllocError>
    ensures verb { IfOk result (λ found. IfSome found (λ request. verb_of request ≡ verb)) }
    ensures words { IfOk result (λ found. IfSome found (IsRequest words.now)) }
    ensures none { IfOk result (λ found. IfNone found (IsMissing verb words.now)) }
    // A number of workers that there may not be is refused before memory is asked for.
    ensures workers { IfErr result (λ _. MayHaveWorkers verb words.now) }
{
    match verb {
        Verb::Area => Ok(area_request(words)),
        Verb::Check => check_request(alloc, words),
        Verb::Export => export_request(alloc, words),
        Verb::Locate => locate_request(alloc, words),
        Verb::Overlay => overlay_request(alloc, words),
        Verb::Part => Ok(part_request(words)),
        Verb::Session => session_request(alloc, words),
        Verb::Explain => explain_request(alloc, words),
    }
}

/// What the words of `area` ask for.
fn area_request<'a>(words: &Words<'_, 'a>) -> Option<Request<'a>>
    ensures verb { IfSome result (λ request. verb_of request ≡ Verb.Area) }
    ensures words { IfSome result (IsRequest words.now) }
    ensures none { IfNone result (IsMissing Verb.Area words.now) }
{
    let (Some(main), Some(unit)) = (words.main, unit_of(words.unit)) else {
        return None;
    };
    Some(Request::Area { main, unit })
}

/// What the words of `check` ask for.
fn check_request<'a>(
    alloc: Global,
    words: &Words<'_, 'a>,
) -> Result<Option<Request<'a>>, AllocError>
    ensures verb { IfOk result (λ found. IfSome found (λ request. verb_of request ≡ Verb.Check)) }
    ensures words { IfOk result (λ found. IfSome found (IsRequest words.now)) }
    ensures none { IfOk result (λ found. IfNone found (IsMissing Verb.Check words.now)) }
    ensures workers { IfErr result (λ _. ¬ IsBeyondWorkers words.now.workers) }
{
    let Some(inputs) = inputs_of(alloc, words)? else {
        return Ok(None);
    };
    let all = words.all;
    Ok(Some(Request::Check { inputs, all }))
}

/// What the words of `export` ask for.
fn export_request<'a>(
    alloc: Global,
    words: &Words<'_, 'a>,
) -> Result<Option<Request<'a>>, AllocError>
    ensures verb { IfOk result (λ found. IfSome found (λ request. verb_of request ≡ Verb.Export)) }
    ensures words { IfOk result (λ found. IfSome found (IsRequest words.now)) }
    ensures none { IfOk result (λ found. IfNone found (IsMissing Verb.Export words.now)) }
    ensures workers { IfErr result (λ _. ¬ IsBeyondWorkers words.now.workers) }
{
    let Some(base) = words.out else {
        return Ok(None);
    };
    let Some(inputs) = inputs_of(alloc, words)? else {
        return Ok(None);
    };
    let force = words.force;
    Ok(Some(Request::Export {
        inputs,
        base,
        force,
    }))
}

/// What the words of `locate` ask for.
fn locate_request<'a>(
    alloc: Global,
    words: &Words<'_, 'a>,
) -> Result<Option<Request<'a>>, AllocError>
    ensures verb { IfOk result (λ found. IfSome found (λ request. verb_of request ≡ Verb.Locate)) }
    ensures words { IfOk result (λ found. IfSome found (IsRequest words.now)) }
    ensures none { IfOk result (λ found. IfNone found (IsMissing Verb.Locate words.now)) }
    ensures workers { IfErr result (λ _. ¬ IsBeyondWorkers words.now.workers) }
{
    let Some(inputs) = inputs_of(alloc, words)? else {
        return Ok(None);
    };
    let Some(points) = points_of(alloc, words)? else {
        return Ok(None);
    };
    Ok(Some(Request::Locate { inputs, points }))
}

/// What the words of `overlay` ask for.
fn overlay_request<'a>(
    alloc: Global,
    words: &Words<'_, 'a>,
) -> Result<Option<Request<'a>>, AllocError>
    ensures verb { IfOk result (λ found. IfSome found (λ request. verb_of request ≡ Verb.Overlay)) }
    ensures words { IfOk result (λ found. IfSome found (IsRequest words.now)) }
    ensures none { IfOk result (λ found. IfNone found (IsMissing Verb.Overlay words.now)) }
    ensures workers { IfErr result (λ _. ¬ IsBeyondWorkers words.now.workers) }
{
    let Some(zones) = words.zones else {
        return Ok(None);
    };
    let Some(inputs) = inputs_of(alloc, words)? else {
        return Ok(None);
    };
    let areas = words.areas;
    Ok(Some(Request::Overlay {
        inputs,
        zones,
        areas,
    }))
}

/// What the words of `part` ask for.
fn part_request<'a>(words: &Words<'_, 'a>) -> Option<Request<'a>>
    ensures verb { IfSome result (λ request. verb_of request ≡ Verb.Part) }
    ensures words { IfSome result (IsRequest words.now) }
    ensures none { IfNone result (IsMissing Verb.Part words.now) }
{
    let (Some(districts), Some(base)) = (districts_of(words), words.out) else {
        return None;
    };
    let force = words.force;
    Some(Request::Part {
        districts,
        base,
        force,
    })
}

/// What the words of `session` ask for.
fn session_request<'a>(
    alloc: Global,
    words: &Words<'_, 'a>,
) -> Result<Option<Request<'a>>, AllocError>
    ensures verb { IfOk result (λ found. IfSome found (λ request. verb_of request ≡ Verb.Session)) }
    ensures words { IfOk result (λ found. IfSome found (IsRequest words.now)) }
    ensures none { IfOk result (λ found. IfNone found (IsMissing Verb.Session words.now)) }
    ensures workers { IfErr result (λ _. ¬ IsBeyondWorkers words.now.workers) }
{
    let (Some(city), Some(parcels)) = (words.city, words.parcels) else {
        return Ok(None);
    };
    let (Some(unit), Ok(workers)) = (unit_of(words.unit), workers_or_none(words.workers)) else {
        return Ok(None);
    };
    let desks = Vec::from_slice(alloc, words.desks.unwrap_or(&[]))?;
    Ok(Some(Request::Session(Session {
        city,
        parcels,
        unit,
        zones: words.zones,
        journal: words.journal,
        clerk: first_word(words.clerks),
        desks,
        workers,
    })))
}

/// The first of the words that were given under a name, where there is one.
fn first_word<'a>(words: Option<&[&'a str]>) -> Option<&'a str>
    ensures { result ≡ first_of (given words.entry) }
{
    match words {
        Some([first, ..]) => Some(*first),
        _ => None,
    }
}

/// What the words of `explain` ask for.
fn explain_request<'a>(
    alloc: Global,
    words: &Words<'_, 'a>,
) -> Result<Option<Request<'a>>, AllocError>
    ensures verb { IfOk result (λ found. IfSome found (λ request. verb_of request ≡ Verb.Explain)) }
    ensures words { IfOk result (λ found. IfSome found (IsRequest words.now)) }
    ensures none { IfOk result (λ found. IfNone found (IsMissing Verb.Explain words.now)) }
{
    let code = Vec::from_slice(alloc, words.code.unwrap_or(&[]))?;
    Ok(Some(Request::Explain { code }))
}

/// What a request about parcels reads; `None` where a word is missing.
fn inputs_of<'a>(alloc: Global, words: &Words<'_, 'a>) -> Result<Option<Inputs<'a>>, AllocError>
    ensures found { IfOk result (λ found. IfSome found (AreInputs words.now)) }
    ensures none { IfOk result (λ found. IfNone found (HasNoInputs words.now)) }
    ensures workers { IfErr result (λ _. ¬ IsBeyondWorkers words.now.workers) }
{
    let (Some(city), Some(parcels)) = (words.city, words.parcels) else {
        return Ok(None);
    };
    let (Some(unit), Ok(workers)) = (unit_of(words.unit), workers_or_none(words.workers)) else {
        return Ok(None);
    };
    let clerks = Vec::from_slice(alloc, words.clerks.unwrap_or(&[]))?;
    Ok(Some(Inputs {
        city,
        parcels,
        unit,
        clerks,
        workers,
    }))
}

/// What a request about districts reads; `None` where a word is missing.
fn districts_of<'a>(words: &Words<'_, 'a>) -> Option<Districts<'a>>
    ensures found { IfSome result (AreDistrictWords words.now) }
    ensures none { IfNone result (HasNoDistricts words.now) }
{
    let (Some(city), Some(districts)) = (words.city, words.districts) else {
        return None;
    };
    let (Some(unit), Some(wanted)) = (unit_of(words.unit), wanted_of(words)) else {
        return None;
    };
    let Ok(workers) = workers_or_none(words.workers) else {
        return None;
    };
    Some(Districts {
        city,
        districts,
        unit,
        wanted,
        workers,
    })
}

/// Which districts were asked for; `None` where neither a number was given nor all were asked for, or both.
fn wanted_of(words: &Words<'_, '_>) -> Option<Wanted>
    ensures found { IfSome result (AreWanted words.now) }
    ensures none { IfNone result (IsNoChoice words.now) }
{
    match (words.id, words.all) {
        (Some(id), false) => Some(Wanted::One(id)),
        (None, true) => Some(Wanted::All),
        (Some(_), true) | (None, false) => None,
    }
}

/// The points that were given; `None` where there is no file of them, and the words of `--at` are none.
fn points_of<'a>(alloc: Global, words: &Words<'_, 'a>) -> Result<Option<Points<'a>>, AllocError>
    ensures found { IfOk result (λ found. IfSome found (ArePoints words.now)) }
    ensures none { IfOk result (λ found. IfNone found (HasNoPoints words.now)) }
{
    if let Some(path) = words.points {
        return Ok(Some(Points::File(path)));
    }
    match corners_of(alloc, words.at.unwrap_or(&[]))? {
        Some(corners) => Ok(Some(Points::At(corners))),
        None => Ok(None),
    }
}

/// The corners whose coordinates the words are, two and two; `None` where they are none.
fn corners_of(alloc: Global, words: &[&str]) -> Result<Option<Corners<Global>>, AllocError>
    ensures found { IfOk result (λ corners. IfSome corners
        (AreCornerWords Millimetres (map (λ word. word.now) words.now))) }
    ensures none { IfOk result (λ corners. IfNone corners
        ((list : List Corner) → ¬ AreCornerWords Millimetres (map (λ word. word.now) words.now) list)) }
{
    if words.len() % 2 != 0 {
        return Ok(None);
    }
    let mut corners = Corners::new(alloc);
    for i in 0..words.len() / 2 {
        let x = words[2 * i];
        let y = words[2 * i + 1];
        let Some(corner) = read_corner(x.as_bytes(), y.as_bytes()) else {
            return Ok(None);
        };
        corners.push(corner)?;
    }
    Ok(Some(corners))
}

/// How many workers were asked for; `None` where that is no number from 1 to 64.
fn workers_of(count: Option<usize>) -> Option<Workers>
    ensures found { IfSome result (λ workers. count ≡ Some workers.count) }
    ensures none { IfNone result (IsNoWorkerCount count) }
    ensures within { IfSome result (λ _. ¬ IsBeyondWorkers count) }
{
    let Some(count) = count else {
        return None;
    };
    if count < 1 || count > MOST_HANDS {
        return None;
    }
    Some(Workers { count })
}

/// How many workers were asked for, where a number was given.
///
/// # Errors
///
/// The number, where it is not from 1 to 64.
fn workers_or_none(count: Option<usize>) -> Result<Option<Workers>, usize>
    ensures found { IfOk result (AreWorkers count) }
    ensures none { IfErr result (λ given. IsBeyondWorkers count) }
    ensures within { IfOk result (λ _. ¬ IsBeyondWorkers count) }
{
    let Some(given) = count else {
        return Ok(None);
    };
    match workers_of(count) {
        Some(workers) => Ok(Some(workers)),
        None => Err(given),
    }
}

/// The unit that was given.
fn unit_of(word: Option<&str>) -> Option<Unit>
    ensures named { IfSome result (IsUnit word.entry) }
    ensures none { IfNone result (IsNoUnit word.entry) }
{
    match word {
        Some("mm") => Some(Unit::Mm),
        Some("cm") => Some(Unit::Cm),
        Some("m") => Some(Unit::M),
        _ => None,
    }
}
