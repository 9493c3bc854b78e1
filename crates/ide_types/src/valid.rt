//! A topology that meets every bound and rule (this profile).

ghost use Rattle.std.specs.Prelude.{◌≡◌};
ghost use Rattle.ide_types.specs.Fits.{FitsPlan};

use crate::Plan;
use std::marker::Model;

/// A topology that meets every bound and rule, so that a call which takes one asks nothing of it.
#[derive(Drop)]
pub struct ValidPlan {
    plan: Plan,
}

impl Model for ValidPlan {
    ghost use Rattle.ide_types.specs.declared.plan.Plan.{Plan};
    ghost use Rattle.ide_types.specs.Fits.{FitsPlan};

    ghost Value = { Plan };

    ghost view = { λ v. v.plan };

    ghost invariant = { λ v. FitsPlan v.plan };
}

impl ValidPlan {
    /// Of a topology that meets them.
    pub fn new(plan: Plan) -> ValidPlan
        requires { FitsPlan plan }
        ensures { result ≡ plan }
    {
        ValidPlan { plan }
    }

    /// The topology, lent.
    pub fn plan(&self) -> &Plan
        ensures value { result.now ≡ self.now }
        ensures fits { FitsPlan self.now }
    {
        &self.plan
    }
}
