//! The files of a pool's disks, which a contract sees as a list of their paths.
ghost use Rattle.std.specs.Prelude.{◌≡◌, ◌≤◌, ◌-◌, ◌++◌, ◌∷◌, [], IfOk, map, length, take, drop, OnOk, string_bytes};

use std::alloc::{AllocError, Global};
use std::marker::Model;

/// Paths of files, in the order of the line. A path is text: words of a line that are no UTF-8 can't be given.
#[derive(Debug, Drop)]
pub struct Files {
    paths: Vec<String>,
}

impl Model for Files {
    ghost use Rattle.std.specs.Prelude.{ℕ, List, map, string_bytes};

    ghost Value = { List (List ℕ) };

    ghost view = { λ files. map string_bytes files.paths.items };
}

impl Files {
    /// No file.
    pub(crate) fn new(alloc: Global) -> Files
        ensures { result ≡ [] }
    {
        Files {
            paths: Vec::new(alloc),
        }
    }

    /// Adds a file behind the others.
    pub(crate) fn push(&mut self, alloc: Global, path: &str) -> Result<(), AllocError>
        ensures { OnOk result (self.new ≡ self.old ++ path.now ∷ []) }
    {
        let path = String::from_str(alloc, path)?;
        self.paths.push(path)?;
        Ok(())
    }

    /// The files of these paths.
    pub(crate) fn of(alloc: Global, paths: &[&str]) -> Result<Files, AllocError>
        ensures { IfOk result (λ files. files ≡ map (λ path. path.now) paths.now) }
    {
        let mut files = Files::new(alloc);
        for path in paths {
            files.push(alloc, path)?;
        }
        Ok(files)
    }

    /// Parts the files: all but the last ones, and the last ones, of which there are so many.
    pub(crate) fn split_last(self, count: usize) -> Result<(Files, Files), AllocError>
        requires { count ≤ length self }
        ensures { IfOk result (λ parts. (parts.0 ≡ take (length self - count) self)
            × (parts.1 ≡ drop (length self - count) self)) }
    {
        let kept = self.len() - count;
        let mut paths = self.paths;
        let last = paths.split_off(kept)?;
        Ok((Files { paths }, Files { paths: last }))
    }

    pub(crate) fn len(&self) -> usize
        ensures { result ≡ length self.now }
    {
        self.paths.len()
    }

    /// The paths, in order.
    pub fn as_slice(&self) -> &[String]
        ensures { map string_bytes result.now ≡ self.now }
    {
        self.paths.as_slice()
    }
}
