//! A session that a program holds by its address.

ghost use Rattle.std.specs.Prelude.{◌≡◌, Option, Some, None, IsSome};
ghost use Rattle.svc_c.specs.SessionData.{SessionData};
ghost use Rattle.svc_c.specs.Held.{session_coded, held_owns};

mod parts;

use crate::session::Session;
use parts::Parts;
use std::alloc::Global;
use std::marker::Model;
use std::ptr;

/// A session, or none. Before the first call all its bytes are 0, which is none.
#[repr(C)]
#[derive(Drop)]
pub struct Handle {
    at: *mut u8,
    alloc: Global,
    pub ghost session: { Option SessionData } by { session_coded },
}

impl Model for Handle {
    ghost also_owns = { λ h. held_owns h.alloc h.at h.session };
}

impl Handle {
    /// No session.
    pub fn none(alloc: Global) -> Handle
        ensures { result.session ≡ None }
    {
        Handle {
            at: ptr::null_mut(),
            alloc,
        }
    }

    /// This session.
    pub fn of(session: Box<Session>) -> Handle
        ensures { result.session ≡ Some session.value }
    {
        Handle::of_parts(Parts::of(session))
    }

    /// The session that it has.
    pub fn into_box(self) -> Box<Session>
        requires { IsSome self.session }
        ensures { self.session ≡ Some result.value }
    {
        self.into_parts().into_box()
    }

    fn of_parts(parts: Parts<Session, Global>) -> Handle
        ensures { result.session ≡ Some parts.value }
    {
        let Parts { ptr, alloc } = parts;
        Handle {
            at: ptr as *mut u8,
            alloc,
        }
    }

    fn into_parts(self) -> Parts<Session, Global>
        requires { IsSome self.session }
        ensures { self.session ≡ Some result.value }
    {
        let Handle { at, alloc } = self;
        Parts {
            ptr: at as *mut Session,
            alloc,
        }
    }
}
