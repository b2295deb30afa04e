//! Where a layer is written.

ghost use Rattle.std.specs.Prelude.{◌↔◌, IsTrue};
ghost use Rattle.tool_arguments.specs.Bases.{IsRefusedBase, IsMainPath};

/// How long `.shp` is.
const ENDING: usize = 4;

/// Whether a path names no layer that is to be written: it is empty, or ends in `.shp`, in capitals or not.
pub fn is_refused_base(base: &str) -> bool
    ensures { IsTrue result ↔ IsRefusedBase base.now }
{
    base.is_empty() || ends_in_shp(base.as_bytes())
}

/// Whether a path ends in `.shp`, in capitals or not.
fn ends_in_shp(path: &[u8]) -> bool
    ensures { IsTrue result ↔ IsMainPath path.now }
{
    let front = path.len().saturating_sub(ENDING);
    path[front..].eq_ignore_ascii_case(b".shp")
}
