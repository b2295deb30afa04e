//! The files that a session has of its own. No export replaces them.

ghost use Rattle.std.specs.Prelude.{◌≡◌, ℕ, List, [], ◌∷◌, ◌++◌, IfOk, OnOk, MatchBool, MatchOption, map, string_bytes};
ghost use Rattle.std.specs.Option.{option_map, option_to_list};
ghost use Rattle.register_sessions.specs.own.OwnFiles.{AreLayerPaths, AreLayerPathsOf, desk_paths, AreOwnPaths};
ghost use Rattle.register_sessions.specs.own.OwnFiles.{NameOneFile, NameTwoFiles, NamesOneOf, NamesNoneOf};
ghost use Rattle.register_sessions.specs.own.OwnFiles.{IsOwnBase, IsFreeBase};

use crate::journal_file::Machine;
use crate::pipes::{ANSWERS, LINES, LOCK};
use crate::start::Plan;
use std::alloc::{AllocError, Allocator};
use std::marker::Model;

/// The paths of a session's own files: the layers that it read, its journal, and the pipes and locks of its desks.
///
/// Contracts see the paths.
#[derive(Drop)]
pub(crate) struct OwnFiles<A: Allocator> {
    paths: Vec<String<A>, A>,
}

impl<A: Allocator> Model for OwnFiles<A> {
    ghost use Rattle.std.specs.Prelude.{ℕ, List, map, string_bytes};

    ghost Value = { List (List ℕ) };

    ghost view = { λ files. map string_bytes files.paths.items };
}

impl<A: Allocator + Copy> OwnFiles<A> {
    /// The own files of a session that is started so.
    pub(crate) fn of_plan(alloc: A, plan: &Plan<'_>) -> Result<OwnFiles<A>, AllocError>
        ensures { IfOk result (AreOwnPaths plan.now) }
    {
        let mut files = OwnFiles {
            paths: Vec::new(alloc),
        };
        files.push_layer(alloc, plan.city)?;
        files.push_layer(alloc, plan.parcels)?;
        files.push_zones(alloc, plan.zones)?;
        files.push_journal(alloc, plan.journal)?;
        for name in plan.desks.as_slice() {
            files.push_desk(alloc, name)?;
        }
        Ok(files)
    }

    /// Adds a path.
    fn push(&mut self, path: String<A>) -> Result<(), AllocError>
        ensures { OnOk result (self.new ≡ self.old ++ string_bytes path ∷ []) }
    {
        self.paths.push(path)?;
        Ok(())
    }

    /// Adds the paths of a layer's main file and of its index.
    fn push_layer(&mut self, alloc: A, main: &str) -> Result<(), AllocError>
        ensures { OnOk result ((paths : List (List ℕ)) × AreLayerPaths main.now paths
            × (self.new ≡ self.old ++ paths)) }
    {
        self.push(format!(in alloc; "{main}")?)?;
        if let Some(stem) = main.strip_suffix(".shp") {
            self.push(format!(in alloc; "{stem}.shx")?)?;
        }
        Ok(())
    }

    /// Adds the same of the zones, where there are some.
    fn push_zones(&mut self, alloc: A, zones: Option<&str>) -> Result<(), AllocError>
        ensures { OnOk result ((paths : List (List ℕ))
            × AreLayerPathsOf (option_map (λ main. main.now) zones.entry) paths × (self.new ≡ self.old ++ paths)) }
    {
        match zones {
            Some(main) => self.push_layer(alloc, main),
            None => Ok(()),
        }
    }

    /// Adds the journal's path, where there is one.
    fn push_journal(&mut self, alloc: A, journal: Option<&str>) -> Result<(), AllocError>
        ensures { OnOk result (self.new ≡ self.old ++ map (λ path. path.now) (option_to_list journal.entry)) }
    {
        match journal {
            Some(path) => self.push(format!(in alloc; "{path}")?),
            None => Ok(()),
        }
    }

    /// Adds the paths of a desk's pipes, and of its lock.
    fn push_desk(&mut self, alloc: A, name: &str) -> Result<(), AllocError>
        ensures { OnOk result (self.new ≡ self.old ++ desk_paths name.now) }
    {
        self.push(format!(in alloc; "{name}{LINES}")?)?;
        self.push(format!(in alloc; "{name}{ANSWERS}")?)?;
        self.push(format!(in alloc; "{name}{LOCK}")?)
    }

    /// The one of them that an export to BASE would replace, if there is one: its path as the export names it.
    pub(crate) fn find_in_export<M: Machine>(
        &self,
        machine: &M,
        alloc: A,
        base: &str,
    ) -> Result<Option<String<A>>, AllocError>
        ensures { IfOk result (λ found. MatchOption found (IsFreeBase M.tells machine.now self.now base.now)
            (λ path. IsOwnBase M.tells machine.now self.now base.now (string_bytes path))) }
    {
        match self.find_at(machine, alloc, base, ".shp")? {
            Some(path) => Ok(Some(path)),
            None => self.find_at(machine, alloc, base, ".shx"),
        }
    }

    /// The path that is BASE and an ending, if that names one of them.
    fn find_at<M: Machine>(
        &self,
        machine: &M,
        alloc: A,
        base: &str,
        ending: &str,
    ) -> Result<Option<String<A>>, AllocError>
        ensures { IfOk result (λ found. MatchOption found
            (NamesNoneOf M.tells machine.now self.now (base.now ++ ending.now))
            (λ path. (string_bytes path ≡ base.now ++ ending.now)
            × NamesOneOf M.tells machine.now self.now (string_bytes path))) }
    {
        let path = format!(in alloc; "{base}{ending}")?;
        if self.has(machine, path.as_str()) {
            Ok(Some(path))
        } else {
            Ok(None)
        }
    }

    /// Whether a path names one of them, also by another path, or by a link.
    fn has<M: Machine>(&self, machine: &M, path: &str) -> bool
        ensures { MatchBool result (NamesOneOf M.tells machine.now self.now path.now)
            (NamesNoneOf M.tells machine.now self.now path.now) }
    {
        let node = machine.node(path).ok();
        for own in self.paths.iter() {
            if is_one_file(machine, path, node, own.as_str()) {
                return true;
            }
        }
        false
    }
}

/// Whether a path, of whose file this node was told, and another one name the same file.
fn is_one_file<M: Machine>(machine: &M, path: &str, node: Option<(u64, u64)>, own: &str) -> bool
    requires { M.tells machine.now path.now node }
    ensures { MatchBool result (NameOneFile M.tells machine.now path.now own.now)
        (NameTwoFiles M.tells machine.now path.now own.now) }
{
    if own == path {
        return true;
    }
    match node {
        None => false,
        Some(node) => machine.node(own).ok() == Some(node),
    }
}
