//! How the values of keys are read.

ghost use Rattle.std.specs.Prelude.{Result};
ghost use Rattle.toml.specs.Data.{Data};
ghost use Rattle.toml.specs.View.{view};
ghost use Rattle.toml_walk.specs.declared.fault.PlanFault.{PlanFault};
ghost use Rattle.toml_walk.specs.Fault.{Gives};
ghost use Rattle.toml_walk.specs.Paths as paths;
ghost use Rattle.toml_walk.specs.Walk.{given_value};

use crate::{Path, PlanError};
use std::alloc::Global;
use toml::Value;

/// How the value of a key, or an element of a list, is read.
pub trait Reader {
    /// What such a value means.
    type Out: Drop;

    ghost reads: { Self → paths.Path → Data → Result Self.Out PlanFault };

    /// What the value at the path means, or its first fault.
    fn read(&self, alloc: Global, path: &Path, value: &Value) -> Result<Self::Out, PlanError>
        ensures { Gives (λ x. x) result (reads self.now path.now (view value.now)) };
}

/// A value that is there, for a key that may be without a default; read as by another reader.
#[derive(Clone, Copy)]
pub struct Given<R> {
    pub element: R,
}

impl<R: Reader> Reader for Given<R> {
    type Out = Option<R::Out>;

    ghost reads = { λ g. given_value (R.reads g.element) };

    fn read(&self, alloc: Global, path: &Path, value: &Value) -> Result<Option<R::Out>, PlanError> {
        let given = self.element.read(alloc, path, value)?;
        Ok(Some(given))
    }
}
