//! What stands at all links.

ghost use Rattle.std.specs.Prelude.{◌≡◌, ◌<◌, IfOk, Some, length, slice_get};
ghost use Rattle.std.specs.Borrow.{sem};

use crate::link::LinkAccesses;
use ide_types::{OutOfMemory, Plan};
use std::alloc::Global;
use std::marker::Model;

/// What stands at each link beside its ports and its device's interfaces, by the link's number. Contracts see the list.
#[derive(Drop)]
pub struct Accesses {
    links: Vec<LinkAccesses>,
}

impl Model for Accesses {
    ghost use Rattle.std.specs.Prelude.{List};
    ghost use Rattle.link_stores.specs.declared.link.LinkAccesses.{LinkAccesses};

    ghost Value = { List LinkAccesses };

    ghost view = { λ a. a.links.items };
}

impl Accesses {
    ghost use Rattle.link_stores.specs.Accesses.{new_accesses};
    ghost use Rattle.link_stores.specs.Lending.{LendsLink};

    /// What stands at the links of a plan before the first event.
    pub fn make(alloc: Global, plan: &Plan) -> Result<Accesses, OutOfMemory>
        ensures { IfOk result (λ a. a ≡ new_accesses plan.now.links) }
    {
        let mut links = Vec::new(alloc);
        for link in plan.links.as_slice() {
            links.push(LinkAccesses::make(alloc, link.interfaces.as_slice())?)?;
        }
        Ok(Accesses { links })
    }

    /// What stands at a link, lent.
    pub fn at(&self, link: u8) -> &LinkAccesses
        requires { link < length self.now }
        ensures { slice_get self.now link ≡ Some result.now }
    {
        &self.links[link as usize]
    }

    /// What stands at a link, lent to be changed.
    pub fn at_mut(&mut self, link: u8) -> &mut LinkAccesses
        requires { link < length self.old }
        ensures* lends { sem 𝓛 (LendsLink self.entry link result) }
        ensures value { slice_get self.old link ≡ Some result.now }
    {
        &mut self.links[link as usize]
    }
}
