//! The streams that an interface is bound to.

ghost use Rattle.std.specs.Prelude.{◌≡◌, ◌<◌, ◌≤◌, ◌+◌, [], ◌∷◌, ◌++◌, length};
ghost use Rattle.interface_state.specs.Bindings.{binds, floor_on, without};

use arrayvec::ArrayVec;
use ide_types::Binding;
use std::marker::Model;

/// The streams that an interface is bound to: at most one of a link, and eight between its device and others.
#[derive(Drop)]
pub struct Bindings {
    list: ArrayVec<Binding, 9>,
}

impl Model for Bindings {
    ghost use Rattle.std.specs.Prelude.{List};
    ghost use Rattle.ide_types.specs.declared.binding.Binding.{Binding};

    ghost Value = { List Binding };

    ghost view = { λ b. b.list.items };
}

impl Bindings {
    /// None.
    pub fn new() -> Bindings
        ensures { result ≡ [] }
    {
        Bindings {
            list: ArrayVec::new(),
        }
    }

    /// Appends a binding.
    pub fn push(&mut self, binding: Binding)
        requires { length self.old < 9 }
        ensures { self.new ≡ self.old ++ binding ∷ [] }
    {
        self.list.push(binding);
    }

    /// Appends bindings.
    pub fn append(&mut self, bindings: &Bindings)
        requires { length self.old + length bindings.now ≤ 9 }
        ensures { self.new ≡ self.old ++ bindings.now }
    {
        let _ = self.list.try_extend_from_slice(&bindings.list);
    }

    /// Takes those to a stream away.
    pub fn remove(&mut self, stream: u8)
        ensures { self.new ≡ without stream self.old }
    {
        self.list.retain(|binding| !binding.is_on(stream));
    }

    /// Takes all of them away.
    pub fn clear(&mut self)
        ensures { self.new ≡ [] }
    {
        self.list.clear();
    }

    /// How many there are, at most 9.
    pub fn len(&self) -> usize
        ensures value { result ≡ length self.now }
        ensures most { result ≤ 9 }
    {
        self.list.len()
    }

    /// The bindings, lent.
    pub fn as_slice(&self) -> &[Binding]
        ensures { result.now ≡ self.now }
    {
        &self.list
    }

    /// Whether one of them is to this stream.
    pub fn binds(&self, stream: u8) -> bool
        ensures { result ≡ binds stream self.now }
    {
        self.list.iter().any(|binding| binding.is_on(stream))
    }

    /// The least draw under which writes on this stream are admitted; `None` if none of them is to it.
    pub fn floor_on(&self, stream: u8) -> Option<u32>
        ensures { result ≡ floor_on stream self.now }
    {
        self.list
            .iter()
            .find(|binding| binding.is_on(stream))
            .map(|binding| binding.floor)
    }
}
