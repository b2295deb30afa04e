//! What a request names.

use city_layers::Role;
use geo_exact::Unit;
use tool_arguments::{Inputs, Points, Request};

/// The path of the main file of the layer that has this role in a request.
pub(crate) fn path_of<'a>(request: &Request<'a>, role: Role) -> Option<&'a str> {
    match role {
        Role::File => main_of(request),
        Role::City => city_of(request),
        Role::Parcels => parcels_of(request),
        Role::Zones => zones_of(request),
    }
}

/// The one layer of a request that reads no other.
fn main_of<'a>(request: &Request<'a>) -> Option<&'a str> {
    match request {
        Request::Area { main, .. } => Some(*main),
        _ => None,
    }
}

/// The city of a request.
fn city_of<'a>(request: &Request<'a>) -> Option<&'a str> {
    match request {
        Request::Part { districts, .. } => Some(districts.city),
        Request::Session(session) => Some(session.city),
        _ => match inputs_of(request) {
            Some(inputs) => Some(inputs.city),
            None => None,
        },
    }
}

/// The parcels of a request, or its districts.
fn parcels_of<'a>(request: &Request<'a>) -> Option<&'a str> {
    match request {
        Request::Part { districts, .. } => Some(districts.districts),
        Request::Session(session) => Some(session.parcels),
        _ => match inputs_of(request) {
            Some(inputs) => Some(inputs.parcels),
            None => None,
        },
    }
}

/// The zones of a request.
fn zones_of<'a>(request: &Request<'a>) -> Option<&'a str> {
    match request {
        Request::Overlay { zones, .. } => Some(*zones),
        Request::Session(session) => session.zones,
        _ => None,
    }
}

/// What a request about parcels reads.
pub(crate) fn inputs_of<'r, 'a>(request: &'r Request<'a>) -> Option<&'r Inputs<'a>> {
    match request {
        Request::Check { inputs, .. }
        | Request::Export { inputs, .. }
        | Request::Locate { inputs, .. }
        | Request::Overlay { inputs, .. } => Some(inputs),
        _ => None,
    }
}

/// The unit of a request's layers.
pub(crate) fn unit_of(request: &Request<'_>) -> Option<Unit> {
    match request {
        Request::Area { unit, .. } => Some(*unit),
        Request::Part { districts, .. } => Some(districts.unit),
        Request::Session(session) => Some(session.unit),
        _ => match inputs_of(request) {
            Some(inputs) => Some(inputs.unit),
            None => None,
        },
    }
}

/// The path of the file of a clerk, from 1.
pub(crate) fn clerk_of<'a>(request: &Request<'a>, clerk: u32) -> Option<&'a str> {
    let place = clerk.checked_sub(1)?;
    let inputs = inputs_of(request)?;
    inputs.clerks.as_slice().get(place as usize).copied()
}

/// The path of the file of points; standard input is none.
pub(crate) fn points_of<'a>(request: &Request<'a>) -> Option<&'a str> {
    match request {
        Request::Locate {
            points: Points::File(path),
            ..
        } if *path != "-" => Some(*path),
        _ => None,
    }
}

/// Whether `-` of a request is standard input alone: its points are, and no file of it has that name.
pub(crate) fn is_of_standard_input(request: &Request<'_>) -> bool {
    match request {
        Request::Locate {
            inputs,
            points: Points::File(path),
        } => {
            *path == "-"
                && inputs.city != "-"
                && inputs.parcels != "-"
                && !inputs.clerks.as_slice().contains(&"-")
        }
        _ => false,
    }
}

/// The word of `--unit` for a unit.
pub(crate) fn word_of(unit: Unit) -> &'static str {
    match unit {
        Unit::Mm => "mm",
        Unit::Cm => "cm",
        Unit::M => "m",
    }
}
