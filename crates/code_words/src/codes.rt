//! The codes, in the order of the pages. They stand in groups, each behind a call of its own: a list of all is more
//! than the prover takes in one declaration.

use crate::words::CodeWords;

/// How many groups there are.
pub const GROUPS: usize = 9;

/// The codes of a group, from 0, in words; none past the last.
pub fn group(place: usize) -> &'static [CodeWords] {
    match place {
        0 => file_codes(),
        1 => coordinate_codes(),
        2 => ring_codes(),
        3 => run_codes(),
        4 => system_codes(),
        5 => journal_codes(),
        6 => session_codes(),
        7 => edit_codes(),
        8 => later_edit_codes(),
        _ => &[],
    }
}

/// The codes of what a file may have wrong.
fn file_codes() -> &'static [CodeWords] {
    &FILES
}

const FILES: [CodeWords; 8] = [
    CodeWords {
        code: "F1",
        meaning: "the file ends too early",
        cause: "a copy or a download that broke off, or a `.shx` given as the layer",
        remedy: "copy or export the file again; give the `.shp`",
    },
    CodeWords {
        code: "F2",
        meaning: "not a shapefile",
        cause: "another format under this name, or a `.shx`, `.dbf` or `.zip` given as the layer",
        remedy: "give the `.shp` itself, or convert the layer by ogr2ogr",
    },
    CodeWords {
        code: "F3",
        meaning: "a shapefile of another version",
        cause: "a file that was changed or damaged",
        remedy: "export the layer again",
    },
    CodeWords {
        code: "F4",
        meaning: "another type than polygons, or polygons with Z or M",
        cause: "a layer of points or lines, or one with heights",
        remedy: "convert it: ogr2ogr -dim XY -nlt POLYGON",
    },
    CodeWords {
        code: "F5",
        meaning: "the length of a record does not fit its content",
        cause: "a damaged file",
        remedy: "export the layer again",
    },
    CodeWords {
        code: "F6",
        meaning: "a polygon with a hole, or with a second part",
        cause: "multipart polygons and holes, which many registers have",
        remedy: "split the parts and cut the holes: the page on preparing data says how",
    },
    CodeWords {
        code: "F7",
        meaning: "a ring whose last point is not its first",
        cause: "a program that does not close its rings",
        remedy: "export the layer again",
    },
    CodeWords {
        code: "F8",
        meaning: "too few points for a ring",
        cause: "a polygon that shrank to a line or a point",
        remedy: "remove the polygon, or mend it",
    },
];

/// The codes of a coordinate, a unit, an index, or the size of a file.
fn coordinate_codes() -> &'static [CodeWords] {
    &COORDINATES
}

const COORDINATES: [CodeWords; 6] = [
    CodeWords {
        code: "F9 C1",
        meaning: "a coordinate that is infinite or no number",
        cause: "a polygon that was computed wrongly",
        remedy: "draw the polygon of the record anew",
    },
    CodeWords {
        code: "F9 C2",
        meaning: "a coordinate that is off the millimetre grid",
        cause: "a layer in degrees, a wrong --unit, or coordinates finer than a millimetre",
        remedy: "check the projection and --unit; then snap the layer to 0.001 m",
    },
    CodeWords {
        code: "F9 C3",
        meaning: "a coordinate beyond 100,000 km",
        cause: "a wrong --unit, or an axis in another unit",
        remedy: "check the projection and --unit",
    },
    CodeWords {
        code: "F10",
        meaning: "the index disagrees with the main file",
        cause: "a `.shx` of an older export",
        remedy: "delete the `.shx`, or export the layer again",
    },
    CodeWords {
        code: "F11",
        meaning: "more records, or more corners in a ring or in all, than are read",
        cause: "a ring of more than 4,096 corners, or a layer of more than 65,536 polygons or 1,000,000 corners",
        remedy: "cut such a polygon into several, or check the layer by the Python package, which cuts it into \
                 districts",
    },
    CodeWords {
        code: "U1",
        meaning: "the projections of two layers say different units",
        cause: "layers from different sources, or a `.prj` that belongs to another layer",
        remedy: "convert one of the layers, or give --unit where a `.prj` is wrong",
    },
];

/// The codes of the rings of a layer.
fn ring_codes() -> &'static [CodeWords] {
    &RINGS
}

const RINGS: [CodeWords; 9] = [
    CodeWords {
        code: "S3",
        meaning: "the file of the city has several polygons, or none",
        cause: "city and parcels given in the other order",
        remedy: "give the city first, then the parcels; make one polygon of the outline",
    },
    CodeWords {
        code: "G1",
        meaning: "a ring that has no area",
        cause: "a polygon that was drawn back over itself",
        remedy: "draw it anew, or remove it",
    },
    CodeWords {
        code: "G2",
        meaning: "two edges of a ring cross or touch elsewhere than neighbours in their common corner",
        cause: "a ring that crosses or touches itself",
        remedy: "mend the ring where these edges meet",
    },
    CodeWords {
        code: "G3",
        meaning: "a ring that runs the wrong way round",
        cause: "a path that leaves its parcel",
        remedy: "draw the path inside the parcel",
    },
    CodeWords {
        code: "G5",
        meaning: "two triangles of the city overlap",
        cause: "no layer is known that has this",
        remedy: "report it, with the file",
    },
    CodeWords {
        code: "H1",
        meaning: "the ring of a record, with its neighbours' corners put in, is refused",
        cause: "a parcel that crosses or touches itself, or has no area",
        remedy: "mend the parcel, or remove it where it has no area",
    },
    CodeWords {
        code: "H2",
        meaning: "a gap or an overlap: an edge does not balance",
        cause: "two parcels that do not meet, or lie over each other",
        remedy: "go to the edge on the map and mend the parcels there; check --all prints every edge",
    },
    CodeWords {
        code: "H3",
        meaning: "a record, or the layer, has too many corners with its neighbours' put in",
        cause: "a ring of more than 4,096 corners, or a layer of more than 1,000,000",
        remedy: "cut the parcel, or the layer, into several",
    },
    CodeWords {
        code: "H4",
        meaning: "no polygon has this record number",
        cause: "a number that was counted from 0",
        remedy: "count from 1: the FID of GDAL is one less",
    },
];

/// The codes of clerks, lines and threads of a run.
fn run_codes() -> &'static [CodeWords] {
    &RUNS
}

const RUNS: [CodeWords; 6] = [
    CodeWords {
        code: "K1",
        meaning: "more than eight clerks' files, or desks",
        cause: "",
        remedy: "put files together, or have fewer desks",
    },
    CodeWords {
        code: "K2",
        meaning: "a desk gave its card back to nobody",
        cause: "memory that ran out in a desk's thread",
        remedy: "nothing of the journal is lost: start the session anew",
    },
    CodeWords {
        code: "K3",
        meaning: "a snapshot reader was not made",
        cause: "memory that ran out",
        remedy: "try again",
    },
    CodeWords {
        code: "K4",
        meaning: "there is no version to answer from",
        cause: "memory that ran out while a version was read",
        remedy: "ask again",
    },
    CodeWords {
        code: "L1",
        meaning: "a line that is neither an edit, a question nor skipped",
        cause: "two spaces, a comma, a decimal, a capital, or a byte order mark",
        remedy: "write one space between words and whole numbers, as the grammar says",
    },
    CodeWords {
        code: "O7",
        meaning: "the system refused a thread",
        cause: "a limit on threads, or memory that ran out",
        remedy: "try again, or with fewer --workers or desks",
    },
];

/// The codes of what the system refuses.
fn system_codes() -> &'static [CodeWords] {
    &SYSTEM
}

const SYSTEM: [CodeWords; 6] = [
    CodeWords {
        code: "S1",
        meaning: "a file that cannot be opened or read, or is longer than 64 MiB",
        cause: "a wrong path, a folder, or no right to read it",
        remedy: "check the path and the right to read it",
    },
    CodeWords {
        code: "S2",
        meaning: "writing failed",
        cause: "a full disk, a folder that is not there, or no right to write",
        remedy: "check that the folder of BASE is there, that you may write to it, and that the disk has room",
    },
    CodeWords {
        code: "S4",
        meaning: "a desk's pipe that cannot be served",
        cause: "no named pipe, one that others may read or write, or one that another session serves",
        remedy: "make it by mkfifo -m 600 before the session; give each desk pipes of its own",
    },
    CodeWords {
        code: "S5",
        meaning: "the export would replace a file that the session itself uses",
        cause: "a BASE that is the session's layer, journal, pipe or lock, perhaps under another name",
        remedy: "export to another BASE",
    },
    CodeWords {
        code: "S6",
        meaning: "a file that a GIS would read with the layer stands where that would be written, and is of other \
                  parcels",
        cause: "an export over an older layer, with its table, projection or index",
        remedy: "write under another BASE, or remove such files by --force",
    },
    CodeWords {
        code: "no memory",
        meaning: "an allocation failed",
        cause: "a layer that is too large for this machine, or a limit on memory",
        remedy: "close other programs, or cut the layer into several",
    },
];

/// The codes of the journal of a session.
fn journal_codes() -> &'static [CodeWords] {
    &JOURNALS
}

const JOURNALS: [CodeWords; 6] = [
    CodeWords {
        code: "in use",
        meaning: "another session holds the journal",
        cause: "a session that still runs",
        remedy: "close that session first",
    },
    CodeWords {
        code: "no journal",
        meaning: "the file is not empty, and its first line is no journal's",
        cause: "another file given as journal",
        remedy: "name another file: this one is not touched",
    },
    CodeWords {
        code: "not empty",
        meaning: "a journal is to begin with a clerk's file, and has been begun",
        cause: "a start with --clerk and the journal of an earlier session",
        remedy: "leave out --clerk, or name a new journal",
    },
    CodeWords {
        code: "another layer",
        meaning: "the journal was begun with another city or other parcels",
        cause: "another version of the layer, or records in another order",
        remedy: "start with the layer that the journal began with",
    },
    CodeWords {
        code: "changed",
        meaning: "a line of the journal is not as a session wrote it",
        cause: "a journal that was edited by hand, or damaged",
        remedy: "take the file that the session wrote",
    },
    CodeWords {
        code: "refused",
        meaning: "an edit of the journal does not fit the layer",
        cause: "another version of the layer",
        remedy: "start with the layer that the journal began with",
    },
];

/// The codes of lines of a session.
fn session_codes() -> &'static [CodeWords] {
    &SESSIONS
}

const SESSIONS: [CodeWords; 6] = [
    CodeWords {
        code: "operator",
        meaning: "the line is one of the operator's",
        cause: "a line sent to a desk",
        remedy: "say it at the operator's desk",
    },
    CodeWords {
        code: "no card",
        meaning: "the operator's desk makes no edits",
        cause: "an edit sent to the operator's desk",
        remedy: "send it at a desk",
    },
    CodeWords {
        code: "no window",
        meaning: "the operator's desk answers no questions beside eight desks",
        cause: "a question sent to the operator's desk",
        remedy: "ask at a desk",
    },
    CodeWords {
        code: "no zones",
        meaning: "the session has no zones",
        cause: "a start without --zones",
        remedy: "start the session with --zones",
    },
    CodeWords {
        code: "journal",
        meaning: "the journal cannot be written; no desk takes edits any more",
        cause: "a full disk, or a journal that was moved or removed",
        remedy: "see that the disk has room, close the session and start it anew",
    },
    CodeWords {
        code: "closed",
        meaning: "the operator has closed the session",
        cause: "",
        remedy: "start it anew",
    },
];

/// The codes of edits of parcels, the first.
fn edit_codes() -> &'static [CodeWords] {
    &EDITS
}

const EDITS: [CodeWords; 6] = [
    CodeWords {
        code: "E1",
        meaning: "there was never a parcel with this id",
        cause: "an id of another layer, or a record number of the table",
        remedy: "ask `parcel ID` or `locate X Y` for the id",
    },
    CodeWords {
        code: "E2",
        meaning: "the parcel was retired by an earlier entry",
        cause: "an edit that another clerk made before",
        remedy: "ask `locate X Y` for the parcel that is there now",
    },
    CodeWords {
        code: "E3",
        meaning: "the path does not fit: too few or too many corners, or ends that are no corners",
        cause: "a path that does not begin and end in corners of the parcel, or of the border",
        remedy: "insert the missing corner first, and give the path from corner to corner",
    },
    CodeWords {
        code: "E4",
        meaning: "the two parcels have no edge in common",
        cause: "parcels that touch in a corner alone",
        remedy: "choose neighbours",
    },
    CodeWords {
        code: "E5",
        meaning: "the common edges of the two parcels are not one unbroken run",
        cause: "parcels that meet in two places",
        remedy: "edit them in two steps, over a split",
    },
    CodeWords {
        code: "E6",
        meaning: "a new parcel would not be simple",
        cause: "a path that leaves the parcel, or crosses itself or a border",
        remedy: "draw the path inside the parcel",
    },
];

/// The codes of edits of parcels, the rest.
fn later_edit_codes() -> &'static [CodeWords] {
    &LATER_EDITS
}

const LATER_EDITS: [CodeWords; 6] = [
    CodeWords {
        code: "E7",
        meaning: "no parcel has this edge",
        cause: "corners between the two, or the same corner twice",
        remedy: "give two corners that follow each other in the ring of a parcel",
    },
    CodeWords {
        code: "E8",
        meaning: "the corner does not lie strictly between the two on the edge",
        cause: "a corner that is off the line, or an end of the edge",
        remedy: "give a corner on the edge, in whole millimetres",
    },
    CodeWords {
        code: "E9",
        meaning: "the journal is full, with 1,048,576 entries",
        cause: "",
        remedy: "export the layer, and begin a new session with it",
    },
    CodeWords {
        code: "E10",
        meaning: "the layer would pass a limit",
        cause: "a ring of more than 4,096 corners, 1,000,000 corners in all, or 65,536 parcels",
        remedy: "cut the layer into several",
    },
    CodeWords {
        code: "E11",
        meaning: "no parcel has this corner",
        cause: "a corner that was straightened before, or rounded",
        remedy: "ask `parcel ID` for the corners",
    },
    CodeWords {
        code: "E12",
        meaning: "a parcel bends at this corner",
        cause: "a corner that is not on a straight line in every ring",
        remedy: "move the border first",
    },
];
