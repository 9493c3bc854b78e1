//! The floors of a device's interfaces.

ghost use Rattle.std.specs.Prelude.{◌≡◌, IfOk, replicate, slice_index, slice_set};

use ide_types::OutOfMemory;
use std::alloc::Global;
use std::marker::Model;

/// The floors of a device's interfaces by their place on the link: the least draw under which the device takes a
/// trusted write to the interface (this profile). Contracts see the list of them.
#[derive(Drop)]
pub struct Floors {
    floors: Vec<u32>,
}

impl Model for Floors {
    ghost use Rattle.std.specs.Prelude.{ℕ, List};

    ghost Value = { List ℕ };

    ghost view = { λ f. f.floors.items };
}

impl Floors {
    /// Floors of so many interfaces, all 0.
    pub fn make(alloc: Global, count: usize) -> Result<Floors, OutOfMemory>
        ensures { IfOk result (λ f. f ≡ replicate count 0) }
    {
        let mut floors = Vec::new(alloc);
        floors.resize(count, 0)?;
        Ok(Floors { floors })
    }

    /// The floor of the interface at this place, 0 if there is none.
    pub fn floor(&self, place: usize) -> u32
        ensures { result ≡ slice_index self.now place }
    {
        match self.floors.get(place) {
            Some(floor) => *floor,
            None => 0,
        }
    }

    /// Notes that the interface at this place started while this was the greatest draw that its device opened posted
    /// requests under on its stream.
    pub fn start(&mut self, place: usize, draw: u32)
        ensures { self.new ≡ slice_set self.old place draw }
    {
        if let Some(floor) = self.floors.get_mut(place) {
            *floor = draw;
        }
    }
}
