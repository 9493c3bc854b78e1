//! The paths of keys.

ghost use Rattle.std.specs.Prelude.{◌≡◌, ◌∷◌, ◌++◌, [], IfOk, OnOk};
ghost use Rattle.toml_walk.specs.Fault.{refused, Tells};
ghost use Rattle.toml_walk.specs.Paths.{Key, Place, key_dot, path_text};

use crate::shown::push_shown;
use crate::{KeyFault, PlanError, PlanFault};
use ide_types::Bytes;
use std::alloc::{AllocError, Global};
use std::marker::Model;

// The last step of a path, and the path of what it starts from.
#[derive(Drop)]
#[cycle(path)]
enum LastStep<'a> {
    // The table at the top.
    None,
    Key(&'a Path<'a>, &'a str),
    Place(&'a Path<'a>, usize),
}

/// The path of a key: keys of tables and places in lists, from the table at the top. It borrows each part and takes no
/// memory; only a fault has it as text.
#[derive(Drop)]
#[cycle(path)]
pub struct Path<'a> {
    last: LastStep<'a>,
}

impl<'a> Model for Path<'a> {
    ghost use Rattle.std.specs.Prelude.{List, length};
    ghost use Rattle.std.proofs.Common.{arith};
    ghost use Rattle.toml_walk.specs.Paths.{Step};

    ghost Value = { List Step };

    ghost use Rattle.toml_walk.specs.Steps.{steps};

    ghost view = { λ p. steps p.last };

    ghost size = { length };

    ghost size_decreases = { λ p h. Prim.grind arith };
}

impl Path<'_> {
    /// The path of the table at the top.
    pub fn top() -> Path<'static>
        ensures { result ≡ [] }
    {
        Path {
            last: LastStep::None,
        }
    }

    /// The path of a key of the table at this path.
    pub fn key<'b>(&'b self, name: &'b str) -> Path<'b>
        ensures { result ≡ Key name.now ∷ self.now }
    {
        Path {
            last: LastStep::Key(self, name),
        }
    }

    /// The path of an element of the list at this path, by its place from 0.
    pub fn place(&self, i: usize) -> Path<'_>
        ensures { result ≡ Place i ∷ self.now }
    {
        Path {
            last: LastStep::Place(self, i),
        }
    }

    fn key_dot(&self) -> &'static str
        ensures { result.now ≡ key_dot self.now }
    {
        match self.last {
            LastStep::None => "",
            LastStep::Key(_, _) | LastStep::Place(_, _) => ".",
        }
    }

    #[tactic(auto, unfolding(crate::specs::Paths::path_text))]
    fn push(&self, alloc: Global, text: &mut Vec<u8>) -> Result<(), AllocError>
        ensures { OnOk result (text.new.items ≡ text.old.items ++ path_text self.now) }
    {
        match self.last {
            LastStep::None => Ok(()),
            LastStep::Key(table, name) => {
                table.push(alloc, text)?;
                text.extend_from_slice(table.key_dot().as_bytes())?;
                push_shown(alloc, name, text)
            }
            LastStep::Place(list, i) => {
                list.push(alloc, text)?;
                text.extend_from_slice(b".")?;
                text.extend_from_slice(i.to_string(alloc)?.as_bytes())
            }
        }
    }

    // Keys, each as TOML writes it in printable ASCII, and places in decimal, joined by dots.
    fn text(&self, alloc: Global) -> Result<Bytes, AllocError>
        ensures { IfOk result (λ text. text ≡ path_text self.now) }
    {
        let mut text = Vec::new(alloc);
        self.push(alloc, &mut text)?;
        Ok(Bytes::new(text))
    }

    /// The fault of the key at this path, or `Memory` if there is none for the path's text.
    pub fn refuse(&self, alloc: Global, fault: KeyFault) -> PlanError
        ensures { Tells result (refused self.now fault) }
    {
        match self.text(alloc) {
            Ok(path) => PlanError::Fault(PlanFault::At { path, fault }),
            Err(_) => PlanError::Memory,
        }
    }
}
