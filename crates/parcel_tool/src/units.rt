//! What the projections beside a request's layers say of the unit.

use crate::named::{path_of, word_of};
use city_layers::{Disk, Role, read_text};
use geo_exact::Unit;
use projection_units::{Stated, unit_of_projection};
use std::alloc::{AllocError, Global};
use std::rt::Files;
use tool_arguments::Request;

/// The endings of a projection's file. The first that stands there is the layer's.
const ENDINGS: [&str; 2] = [".prj", ".PRJ"];

/// What the projection beside a layer says.
#[derive(Clone, Copy)]
pub(crate) struct Said<'a> {
    /// What the layer is to the run.
    pub(crate) role: Role,
    /// The path of its main file, without its ending.
    pub(crate) stem: &'a str,
    /// How the path of the projection ends.
    pub(crate) ending: &'static str,
    /// What that says.
    pub(crate) stated: Stated,
}

/// What the projections beside a request's layers say, of each layer that has one.
pub(crate) fn said_beside<'a, R: Files>(
    rt: &R,
    alloc: Global,
    request: &Request<'a>,
) -> Result<Vec<Said<'a>>, AllocError> {
    let mut all = Vec::new(alloc);
    for role in [Role::File, Role::City, Role::Parcels, Role::Zones] {
        if let Some(stem) = stem_of(request, role) {
            if let Some(said) = said_of(rt, alloc, role, stem)? {
                all.push(said)?;
            }
        }
    }
    Ok(all)
}

/// The path of the layer of a role without its ending.
fn stem_of<'a>(request: &Request<'a>, role: Role) -> Option<&'a str> {
    let path = path_of(request, role)?;
    path.strip_suffix(".shp").or(path.strip_suffix(".SHP"))
}

/// What the projection beside the layer of a role says, where there is one.
fn said_of<'a, R: Files>(
    rt: &R,
    alloc: Global,
    role: Role,
    stem: &'a str,
) -> Result<Option<Said<'a>>, AllocError> {
    for ending in ENDINGS {
        let path = format!(in alloc; "{stem}{ending}")?;
        if rt.symlink_metadata(path.as_str()).is_ok() {
            let stated = stated_at(rt, alloc, path.as_str())?;
            return Ok(Some(Said {
                role,
                stem,
                ending,
                stated,
            }));
        }
    }
    Ok(None)
}

/// What the projection at a path says. What is no regular file is not read: a pipe would keep the run waiting.
fn stated_at<R: Files>(rt: &R, alloc: Global, path: &str) -> Result<Stated, AllocError> {
    match rt.metadata(path) {
        Ok(metadata) if metadata.is_file() => {}
        _ => return Ok(Stated::Unclear),
    }
    match read_text(&Disk(rt), alloc, path) {
        Ok(text) => unit_of_projection(alloc, text.as_slice()),
        Err(_) => Ok(Stated::Unclear),
    }
}

/// The first that says a unit clearly.
pub(crate) fn first_clear<'a>(all: &[Said<'a>]) -> Option<Said<'a>> {
    for said in all {
        if said.stated != Stated::Unclear {
            return Some(*said);
        }
    }
    None
}

/// The first that clearly says another unit than this.
pub(crate) fn first_other<'a>(all: &[Said<'a>], than: Stated) -> Option<Said<'a>> {
    for said in all {
        if said.stated != Stated::Unclear && said.stated != than {
            return Some(*said);
        }
    }
    None
}

/// What a projection says, in a word.
pub(crate) fn word_of_stated(stated: Stated) -> &'static str {
    match stated {
        Stated::Length(unit) => word_of(unit),
        Stated::Degrees => "degrees",
        Stated::Other => "other",
        Stated::Unclear => "unclear",
    }
}

/// The unit of a length.
pub(crate) fn length_of(stated: Stated) -> Option<Unit> {
    match stated {
        Stated::Length(unit) => Some(unit),
        _ => None,
    }
}
