//! Command lines without `--unit`, and units that a projection gainsays.

use crate::named::{unit_of, word_of};
use crate::units::{Said, first_clear, first_other, said_beside, word_of_stated};
use projection_units::Stated;
use std::alloc::{AllocError, Global};
use std::rt::Files;
use tool_arguments::Request;

/// The words with a unit behind them, or before what stands behind `--`.
pub(crate) fn with_unit<'w>(
    alloc: Global,
    words: &'w [String],
    unit: &'w str,
) -> Result<Vec<&'w str>, AllocError> {
    let option: &'w str = "--unit";
    let mut all = Vec::new(alloc);
    let mut given = false;
    for word in words {
        let word = word.as_str();
        if !given && word == "--" {
            all.push(option)?;
            all.push(unit)?;
            given = true;
        }
        all.push(word)?;
    }
    if !given {
        all.push(option)?;
        all.push(unit)?;
    }
    Ok(all)
}

/// Why no unit is known of the layers of a request that gave none, by what the projections beside them say.
pub(crate) fn why_no_unit(alloc: Global, all: &[Said<'_>]) -> Option<String> {
    let Some(said) = first_clear(all).or(all.first().copied()) else {
        return format!(in alloc;
            "no .prj beside the layers says their unit; give --unit mm, cm or m"
        ).ok();
    };
    let (stem, ending) = (said.stem, said.ending);
    let text = match said.stated {
        Stated::Degrees => {
            format!(in alloc; "{stem}{ending} says degrees; project the layer first")
        }
        Stated::Unclear => format!(in alloc;
            "{stem}{ending} says no unit that is understood; give --unit mm, cm or m"
        ),
        Stated::Other | Stated::Length(_) => {
            format!(in alloc;
                "the unit in {stem}{ending} is none of mm, cm and m; convert the layer first"
            )
        }
    };
    text.ok()
}

/// How the first projection beside a layer of a request that gainsays the unit does so; `None` where none does, or
/// memory is refused.
pub(crate) fn other_unit<R: Files>(rt: &R, alloc: Global, request: &Request<'_>) -> Option<String> {
    let given = unit_of(request)?;
    let word = word_of(given);
    let all = said_beside(rt, alloc, request).ok()?;
    let said = first_other(all.as_slice(), Stated::Length(given))?;
    let (stem, ending) = (said.stem, said.ending);
    let text = match said.stated {
        Stated::Other => {
            format!(in alloc;
                "the unit in {stem}{ending} is none of mm, cm and m, and --unit {word} was given"
            )
        }
        stated => {
            let said = word_of_stated(stated);
            format!(in alloc; "{stem}{ending} says {said}, and --unit {word} was given")
        }
    };
    text.ok()
}

/// The paths of two projections, in words of a hint.
pub(crate) fn words_of_differing(
    alloc: Global,
    first: &Said<'_>,
    other: &Said<'_>,
) -> Result<String, AllocError> {
    let (stem, ending) = (first.stem, first.ending);
    let (other_stem, other_ending) = (other.stem, other.ending);
    format!(in alloc; "as {stem}{ending} and {other_stem}{other_ending} say")
}
