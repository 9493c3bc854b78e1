//! A pool of keys, and the six keys of a draw (this profile).

ghost use Rattle.std.specs.Prelude.{◌≡◌, ◌*◌, ◌+◌, ◌≤◌, ◌<◌, ℕ, List, [], ◌∷◌, None, IfOk, length, slice_index_or};
ghost use Rattle.std.specs.Prelude.{slice_set};
ghost use Rattle.std.specs.Option.{option_copied};
ghost use Rattle.key_slots.specs.Draws.{new_pool, next_draw_answer, pool_after, unspent_keys, near_six};

use crate::Key;
use ide_types::OutOfMemory;
use std::alloc::Global;
use std::marker::Model;

/// The most keys of a pool: six for each of 1,024 draws.
pub const MAX_KEYS: usize = 6_144;

/// All draws were made; `draws` is how many they are.
#[derive(Clone, Copy, PartialEq, Eq)]
pub struct PoolEmpty {
    pub draws: u32,
}

/// Keys for draws. Key number 6j + 3d + u is the one of draw j in direction d (0 from host to device, 1 from
/// device to host) for sub-stream u (0 posted, 1 non-posted, 2 completions).
#[derive(Drop)]
pub struct KeyPool {
    keys: Vec<[u8; 32]>,
    draws: u32,
}

impl Model for KeyPool {
    ghost use Rattle.std.specs.Prelude.{◌≤◌, length};
    ghost use Rattle.key_slots.specs.Draws.{Pool, draws_in};

    ghost Value = { Pool };

    ghost view = { λ p. record { keys = p.keys.items; draws = p.draws } };

    ghost invariant = { λ p. (length p.keys.items ≤ 6144) × (p.draws ≤ draws_in p.keys.items) };
}

/// The six keys of one draw, for one operation. It is neither `Copy` nor `Clone`: `split` consumes it.
#[derive(Drop)]
pub struct KeySix {
    draw: u32,
    keys: [[u8; 32]; 6],
}

impl Model for KeySix {
    ghost use Rattle.key_slots.specs.Draws.{DrawnSix};

    ghost Value = { DrawnSix };

    ghost view = { λ s. record { draw = s.draw; keys = s.keys } };
}

/// The six keys of a draw for the host's own port.
#[derive(Drop)]
pub struct HostSix {
    keys: [Key; 6],
}

impl Model for HostSix {
    ghost use Rattle.std.specs.Prelude.{List, ℕ};

    ghost Value = { List (List ℕ) };

    ghost view = { λ s. s.keys };
}

/// The six keys of a draw on their way to the device, each kept until it is spent.
#[derive(Drop)]
pub struct WireSix {
    keys: [Option<Key>; 6],
}

impl Model for WireSix {
    ghost use Rattle.std.specs.Prelude.{List, ℕ, Option};

    ghost Value = { List (Option (List ℕ)) };

    ghost view = { λ s. s.keys };
}

impl KeyPool {
    /// A pool of these keys, none of them drawn.
    pub fn make(alloc: Global, keys: &[[u8; 32]]) -> Result<KeyPool, OutOfMemory>
        requires { length keys.now ≤ MAX_KEYS }
        ensures { IfOk result (λ pool. pool ≡ new_pool keys.now) }
    {
        let keys = Vec::from_slice(alloc, keys)?;
        Ok(KeyPool { keys, draws: 0 })
    }

    /// How many draws were made.
    pub fn draws(&self) -> u32
        ensures { result ≡ self.now.draws }
    {
        self.draws
    }

    /// Takes the six keys of the next draw. Returns `PoolEmpty` exactly if all draws were made, and then changes
    /// nothing.
    pub fn draw(&mut self) -> Result<KeySix, PoolEmpty>
        ensures answer { result ≡ next_draw_answer self.old }
        ensures pool { self.new ≡ pool_after self.old }
    {
        let draw = self.draws;
        let first = 6 * draw as usize;
        if self.keys.len() < first + 6 {
            return Err(PoolEmpty { draws: draw });
        }
        let keys = [
            self.keys[first],
            self.keys[first + 1],
            self.keys[first + 2],
            self.keys[first + 3],
            self.keys[first + 4],
            self.keys[first + 5],
        ];
        self.draws += 1;
        Ok(KeySix { draw, keys })
    }
}

impl KeySix {
    /// The number of the draw; draws of a pool are numbered from 0.
    pub fn draw(&self) -> u32
        ensures { result ≡ self.now.draw }
    {
        self.draw
    }

    /// The six keys for the host's port, and the same six for the device.
    pub fn split(self) -> (HostSix, WireSix)
        ensures host { result.0 ≡ self.keys }
        ensures wire { result.1 ≡ unspent_keys self.keys }
    {
        let [a, b, c, d, e, f] = self.keys;
        let host = [
            Key::of(a),
            Key::of(b),
            Key::of(c),
            Key::of(d),
            Key::of(e),
            Key::of(f),
        ];
        let wire = [
            Some(Key::of(a)),
            Some(Key::of(b)),
            Some(Key::of(c)),
            Some(Key::of(d)),
            Some(Key::of(e)),
            Some(Key::of(f)),
        ];
        (HostSix { keys: host }, WireSix { keys: wire })
    }

    /// The six keys for the two ends of a line that are both keyed by messages: first those of the near end, by its own
    /// lanes, which receive direction 1 and send direction 0; then those of the far end.
    pub fn split_wire(self) -> (WireSix, WireSix)
        ensures near { result.0 ≡ unspent_keys (near_six self.keys) }
        ensures far { result.1 ≡ unspent_keys self.keys }
    {
        let [a, b, c, d, e, f] = self.keys;
        let near = [
            Some(Key::of(d)),
            Some(Key::of(e)),
            Some(Key::of(f)),
            Some(Key::of(a)),
            Some(Key::of(b)),
            Some(Key::of(c)),
        ];
        let far = [
            Some(Key::of(a)),
            Some(Key::of(b)),
            Some(Key::of(c)),
            Some(Key::of(d)),
            Some(Key::of(e)),
            Some(Key::of(f)),
        ];
        (WireSix { keys: near }, WireSix { keys: far })
    }
}

impl HostSix {
    /// The keys, by place 3 * direction + sub-stream.
    pub fn keys(self) -> [Key; 6]
        ensures { result ≡ self }
    {
        self.keys
    }
}

impl WireSix {
    /// The key at place `i`, 3 * direction + sub-stream; `None` exactly if it was spent.
    pub fn key(&self, i: u8) -> Option<&Key>
        requires { i < 6 }
        ensures { option_copied result ≡ slice_index_or self.now i None }
    {
        self.keys[i as usize].as_ref()
    }

    /// Drops the key at place `i`, 3 * direction + sub-stream.
    pub fn spend(&mut self, i: u8)
        requires { i < 6 }
        ensures { self.new ≡ slice_set self.old i None }
    {
        self.keys[i as usize] = None;
    }
}
