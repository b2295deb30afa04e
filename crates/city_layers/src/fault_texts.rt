//! What the user reads of why a run ended early.

ghost use Rattle.std.specs.Prelude.{◌≡◌, ◌++◌, OnOk, OnErr, decimal};
ghost use Rattle.city_layers.specs.FaultTexts.{role_text, file_text, kind_text, file_fault_text, city_fault_text};
ghost use Rattle.city_layers.specs.FaultTexts.{load_fault_text, fault_text};

use crate::fault::{Role, ToolFault};
use fabric_core::{CityFault, LoadFault};
use geo_exact::CoordFault;
use shp_files::{FaultKind, FileFault, FileName};
use std::fmt;
use text_pieces::{Piece, Sink, push_pieces};

impl fmt::Display for Role {
    fn fmt<W: fmt::Write>(&self, f: &mut fmt::Formatter<W>) -> fmt::Result {
        f.write_str(role_word(*self))
    }
}

impl<'a> fmt::Display for ToolFault<'a> {
    fn fmt<W: fmt::Write>(&self, f: &mut fmt::Formatter<W>) -> fmt::Result {
        push_fault(f, *self)
    }
}

/// Adds why a run ended early, as the user reads it behind `error: `.
///
/// # Errors
///
/// The sink's fault; a beginning of the piece may have been taken then.
pub fn push_fault<S: Sink>(text: &mut S, fault: ToolFault<'_>) -> Result<(), S::Fault>
    ensures ok { OnOk result (S.takes text.old (fault_text fault.entry) text.new) }
    ensures err { OnErr result (S.breaks_off text.old (fault_text fault.entry) text.new) }
{
    match fault {
        ToolFault::Unreadable(path) => push_pieces(text, &[Piece::Text("S1 "), Piece::Text(path)]),
        ToolFault::UnreadableIndex(stem) => push_pieces(
            text,
            &[Piece::Text("S1 "), Piece::Text(stem), Piece::Text(".shx")],
        ),
        ToolFault::Output => text.push_piece("S2"),
        ToolFault::File(role, fault) => push_file_fault(text, role, fault),
        ToolFault::CityCount(count) => push_code(text, "city: S3 ", count as u64),
        ToolFault::CityRing(fault) => push_city_fault(text, fault),
        ToolFault::NoTiling(role, fault) => push_load_fault(text, role, fault),
        ToolFault::ClerkCount(count) => push_code(text, "K1 ", count as u64),
        ToolFault::ClerkLine(clerk, line) => push_clerk_line(text, clerk, line),
        ToolFault::PointLine(number) => push_code(text, "points: L1 ", number as u64),
        ToolFault::NoParcel(id) => push_code(text, "parcels: H4 ", id),
        ToolFault::NoThread(hand) => push_code(text, "O7 ", hand as u64),
        ToolFault::NoWindow(window) => push_code(text, "K3 ", window as u64),
        ToolFault::NoMemory => text.push_piece("no memory"),
    }
}

/// Adds a code, and the number behind it.
fn push_code<S: Sink>(text: &mut S, code: &str, number: u64) -> Result<(), S::Fault>
    ensures ok { OnOk result (S.takes text.old (code.now ++ decimal number) text.new) }
    ensures err { OnErr result (S.breaks_off text.old (code.now ++ decimal number) text.new) }
{
    push_pieces(text, &[Piece::Text(code), Piece::Number(number)])
}

/// Adds which line of which clerk's file is no edit.
fn push_clerk_line<S: Sink>(text: &mut S, clerk: u32, line: u64) -> Result<(), S::Fault>
    ensures ok { OnOk result (S.takes text.old (fault_text (ToolFault.ClerkLine clerk line)) text.new) }
    ensures err { OnErr result (S.breaks_off text.old (fault_text (ToolFault.ClerkLine clerk line)) text.new) }
{
    push_pieces(
        text,
        &[
            Piece::Text("clerk "),
            Piece::Number(u64::from(clerk)),
            Piece::Text(": L1 "),
            Piece::Number(line),
        ],
    )
}

/// Adds the first fault of a layer's files.
fn push_file_fault<S: Sink>(text: &mut S, role: Role, fault: FileFault) -> Result<(), S::Fault>
    ensures ok { OnOk result (S.takes text.old (file_fault_text role fault) text.new) }
    ensures err { OnErr result (S.breaks_off text.old (file_fault_text role fault) text.new) }
{
    push_pieces(
        text,
        &[
            Piece::Text(role_word(role)),
            Piece::Text(": "),
            Piece::Text(kind_code(fault.kind)),
            Piece::Text(" "),
            Piece::Text(file_word(fault.file)),
            Piece::Text(" record "),
            Piece::Number(u64::from(fault.position)),
            Piece::Text(" at "),
            Piece::Number(fault.place),
        ],
    )
}

/// Adds why the city's ring is refused.
fn push_city_fault<S: Sink>(text: &mut S, fault: CityFault) -> Result<(), S::Fault>
    ensures ok { OnOk result (S.takes text.old (city_fault_text fault) text.new) }
    ensures err { OnErr result (S.breaks_off text.old (city_fault_text fault) text.new) }
{
    match fault {
        CityFault::Ring(fault) => {
            push_pieces(text, &[Piece::Text("city: "), Piece::Refused(fault)])
        }
        CityFault::Folded(i, j) => push_pieces(
            text,
            &[
                Piece::Text("city: G5 "),
                Piece::Number(i as u64),
                Piece::Text(" "),
                Piece::Number(j as u64),
            ],
        ),
        CityFault::NoMemory => text.push_piece("no memory"),
    }
}

/// Adds why rings do not tile their city.
fn push_load_fault<S: Sink>(text: &mut S, role: Role, fault: LoadFault) -> Result<(), S::Fault>
    ensures ok { OnOk result (S.takes text.old (load_fault_text role fault) text.new) }
    ensures err { OnErr result (S.breaks_off text.old (load_fault_text role fault) text.new) }
{
    let whose = Piece::Text(role_word(role));
    match fault {
        LoadFault::TooMany(record) => push_pieces(
            text,
            &[
                whose,
                Piece::Text(": H3 "),
                Piece::Number(u64::from(record)),
            ],
        ),
        LoadFault::Ring(record, fault) => push_pieces(
            text,
            &[
                whose,
                Piece::Text(": H1 "),
                Piece::Number(u64::from(record)),
                Piece::Text(" "),
                Piece::Refused(fault),
            ],
        ),
        LoadFault::Gap(a, b, net) => push_pieces(
            text,
            &[
                whose,
                Piece::Text(": H2 "),
                Piece::Corner(a),
                Piece::Text(" "),
                Piece::Corner(b),
                Piece::Text(" net "),
                Piece::Net(net),
            ],
        ),
        LoadFault::NoMemory => text.push_piece("no memory"),
    }
}

/// The layer that a fault is of.
fn role_word(role: Role) -> &'static str
    ensures { result.now ≡ role_text role }
{
    match role {
        Role::File => "file",
        Role::City => "city",
        Role::Parcels => "parcels",
        Role::Zones => "zones",
    }
}

/// Which of a layer's two files a fault is in.
fn file_word(file: FileName) -> &'static str
    ensures { result.now ≡ file_text file }
{
    match file {
        FileName::Main => "main",
        FileName::Index => "index",
    }
}

/// The code of what is wrong in a file.
fn kind_code(kind: FaultKind) -> &'static str
    ensures { result.now ≡ kind_text kind }
{
    match kind {
        FaultKind::Short => "F1",
        FaultKind::FileCode => "F2",
        FaultKind::Version => "F3",
        FaultKind::ShapeType => "F4",
        FaultKind::Content => "F5",
        FaultKind::Parts => "F6",
        FaultKind::NotClosed => "F7",
        FaultKind::FewPoints => "F8",
        FaultKind::Coord(CoordFault::NotNumber) => "F9 C1",
        FaultKind::Coord(CoordFault::OffGrid) => "F9 C2",
        FaultKind::Coord(CoordFault::TooFar) => "F9 C3",
        FaultKind::IndexDisagrees => "F10",
        FaultKind::TooMany => "F11",
    }
}
