//! A session's handle, which lies in C's memory.

ghost use Rattle.std.specs.Prelude.{◌≡◌, false, None, Some, IsNone, IsSome, IfSome, IsTrue};
ghost use Rattle.std.specs.declared.option.Option.{Option};
ghost use Rattle.std.specs.Coded.{coded_option};
ghost use Rattle.ide_session.specs.declared.session.Session.{Session};
ghost use Rattle.ide_session.specs.contracts.session.Session.{the_row};
ghost use Rattle.ide_session.specs.Holding.{heap_token, holding_owns};
ghost use Rattle.ide_session.specs.Sessions.{kept_session};

use crate::loose::Loose;
use crate::session::Session;
use std::alloc::Global;
use std::marker::Model;

/// The pointer to a session, and the session; or neither.
#[repr(C)]
#[derive(Drop)]
pub struct Held {
    at: *mut u8,
    pub ghost kept: { Option Session } by { coded_option (the_row).coded },
}

impl Model for Held {
    ghost also_owns = { λ h. holding_owns heap_token the_row h.at h.kept };
}

impl Held {
    /// Neither a pointer nor a session.
    pub(crate) fn empty() -> Held
        ensures { result.kept ≡ None }
    {
        Held {
            at: std::ptr::null_mut(),
        }
    }

    /// The pointer of a box that was taken apart, with what the box owned.
    pub(crate) fn of(loose: Loose<Session, Global>) -> Held
        ensures { result.kept ≡ Some loose.value }
    {
        let Loose { at, alloc: _ } = loose;
        Held { at: at as *mut u8 }
    }

    /// The same as a box that was taken apart.
    pub(crate) fn into_loose(self, alloc: Global) -> Loose<Session, Global>
        requires { IsSome self.kept }
        ensures { Some result.value ≡ self.kept }
    {
        let Held { at } = self;
        Loose {
            at: at as *mut Session,
            alloc,
        }
    }
}

/// A session's handle: 16 bytes, all 0 before `ide_open`.
#[repr(C)]
#[derive(Drop)]
pub struct Handle {
    pub(crate) held: Held,
    pub(crate) live: bool,
    pub ghost goes_on: { IsTrue live → IsSome (kept_session held.kept) },
    pub ghost is_empty: { live ≡ false → held.kept ≡ None },
}

/// Takes the session out of its handle.
pub(crate) fn unhold(s: &mut Handle, alloc: Global) -> Option<Box<Session>>
    ensures kept { IfSome result (λ b. s.old.held.kept ≡ Some b.value) }
    ensures goes_on { IsSome result → IsSome (kept_session s.old.held.kept) }
    ensures none { IsNone result → s.old.held.kept ≡ None }
    ensures empty { s.new.held.kept ≡ None }
{
    if !s.live {
        return None;
    }
    let held = std::mem::replace(&mut s.held, Held::empty());
    s.live = false;
    Some(held.into_loose(alloc).into_box())
}

/// Puts a session that goes on into an empty handle; one that is over is freed.
pub(crate) fn hold(s: &mut Handle, b: Box<Session>)
    requires { s.old.held.kept ≡ None }
    ensures { kept_session s.new.held.kept ≡ kept_session (Some b.value) }
{
    if b.as_ref().goes_on() {
        s.held = Held::of(Loose::of(b));
        s.live = true;
    }
}
