//! The server core for programs that aren't Rattle: a handful of calls over a handle.
#![tactic(auto)]

ghost use Rattle.std.specs.Prelude.{◌≡◌, None, IsSome};
ghost use Rattle.svc_c.specs.Exports.{Makes, Begins, Tests, Steps, Tells, Ends, Closes, Gives, Waits};

mod answers;
mod handle;
mod making;
mod session;
mod stage;

use answers::{
    close_number, end_number, fits_number, make_number, reason, step_number, told_number,
};
pub use handle::Handle;
use making::{MakeError, flags, make};
use session::{Asked, ToldError, put_front};
use std::alloc::Global;
use std::mem;

/// Makes a session of a script: a configuration, services, and events, which aren't looked at. It
/// answers 0, and the handle has the session; or the number of a refusal, and the handle has none.
/// Where a line is refused, `place` is its number, and where the configuration is, the name of the
/// offending key stands in front in `key`, as far as it fits, and `place` is its length.
#[unsafe(no_mangle)]
pub extern "C" fn svc_c_new(
    alloc: Global,
    script: &[u8],
    upgrade: bool,
    daemon: bool,
    test: bool,
    handle: &mut Handle,
    place: &mut u64,
    key: &mut [u8],
) -> u32
    ensures { Makes upgrade daemon test script.now handle.new.session place.new key.old key.new result }
{
    *handle = Handle::none(alloc);
    *place = 0;
    match make(alloc, flags(upgrade, daemon, test), script) {
        Ok(session) => {
            *handle = Handle::of(session);
            0
        }
        Err(error) => {
            match error {
                MakeError::Line(n) => *place = n,
                MakeError::Config(name) => *place = put_front(name.name().as_bytes(), key) as u64,
                MakeError::NoMemory => {}
            }
            make_number(error)
        }
    }
}

/// The first step of a session. It answers the number of the run's end, 0 where it goes on, or the
/// number of a refusal, after which the session is as it was.
#[unsafe(no_mangle)]
pub extern "C" fn svc_c_begin(alloc: Global, handle: &mut Handle) -> u32
    requires { IsSome handle.old.session }
    ensures { Begins handle.old.session handle.new.session result }
{
    let mut session = mem::replace(handle, Handle::none(alloc)).into_box();
    let answer = session.begin(alloc);
    *handle = Handle::of(session);
    step_number(answer)
}

/// Whether the event of a line may come now: 0 where it may and no filter is asked, 1 where it may
/// and the filter with the number `filter` is asked, or the number of a refusal. `said` is what the
/// blocked addresses of the service say of the peer.
#[unsafe(no_mangle)]
pub extern "C" fn svc_c_fits(
    alloc: Global,
    handle: &mut Handle,
    line: &[u8],
    filter: &mut u32,
    said: &mut bool,
) -> u32
    requires { IsSome handle.old.session }
    ensures { Tests line.now handle.old.session handle.new.session filter.new said.new result }
{
    let session = mem::replace(handle, Handle::none(alloc)).into_box();
    let answer = session.asks(alloc, line);
    *handle = Handle::of(session);
    *filter = 0;
    *said = true;
    if let Ok(
        Asked {
            filter: number,
            said: word,
        },
    ) = answer
    {
        *said = word;
        if let Some(number) = number {
            *filter = number;
        }
    }
    fits_number(answer)
}

/// The step of a line's event, with what the filter said that it asked, if it asked one. It answers
/// the number of the run's end, 0 where it goes on, or the number of a refusal, after which the
/// session is as it was.
#[unsafe(no_mangle)]
pub extern "C" fn svc_c_step(alloc: Global, handle: &mut Handle, line: &[u8], said: bool) -> u32
    requires { IsSome handle.old.session }
    ensures { Steps line.now said handle.old.session handle.new.session result }
{
    let mut session = mem::replace(handle, Handle::none(alloc)).into_box();
    let answer = session.step(alloc, line, said);
    *handle = Handle::of(session);
    step_number(answer)
}

/// The lines of the record that the last call of the session added, at the front of `out`. It answers
/// 0, and `length` is how many bytes they are; or the number of a refusal. Where they don't fit,
/// nothing is written, and `length` is how many are needed.
#[unsafe(no_mangle)]
pub extern "C" fn svc_c_told(
    alloc: Global,
    handle: &mut Handle,
    out: &mut [u8],
    length: &mut u64,
) -> u32
    requires { IsSome handle.old.session }
    ensures { Tells handle.old.session handle.new.session out.old out.new length.new result }
{
    let session = mem::replace(handle, Handle::none(alloc)).into_box();
    let answer = session.told(alloc, out);
    *handle = Handle::of(session);
    *length = match answer {
        Ok(n) => n,
        Err(ToldError::TooShort(n)) => n,
        Err(ToldError::NoMemory) => 0,
    };
    told_number(answer)
}

/// The number of the run's end so far: 0 where it goes on.
#[unsafe(no_mangle)]
pub extern "C" fn svc_c_end(alloc: Global, handle: &mut Handle) -> u32
    requires { IsSome handle.old.session }
    ensures { Ends handle.old.session handle.new.session result }
{
    let session = mem::replace(handle, Handle::none(alloc)).into_box();
    let end = session.end();
    *handle = Handle::of(session);
    end_number(end)
}

/// The least moment, in milliseconds, at which the step of a moment tells something or ends the run; the
/// greatest number of 64 bits while only other events can. Each earlier moment tells nothing.
#[unsafe(no_mangle)]
pub extern "C" fn svc_c_next_due(alloc: Global, handle: &mut Handle) -> u64
    requires { IsSome handle.old.session }
    ensures { Waits handle.old.session handle.new.session result }
{
    let session = mem::replace(handle, Handle::none(alloc)).into_box();
    let moment = session.next_due();
    *handle = Handle::of(session);
    moment.unwrap_or(u64::MAX)
}

/// Cuts what is live and closes what is open, as a run is given up or has ended otherwise than by its
/// shutdown, and with it what the event of the line brought that was left unfinished. An empty line
/// is no event. It answers 0, and no step follows; or the number of a refusal.
#[unsafe(no_mangle)]
pub extern "C" fn svc_c_close(alloc: Global, handle: &mut Handle, line: &[u8]) -> u32
    requires { IsSome handle.old.session }
    ensures { Closes line.now handle.old.session handle.new.session result }
{
    let mut session = mem::replace(handle, Handle::none(alloc)).into_box();
    let answer = session.close(alloc, line);
    *handle = Handle::of(session);
    close_number(answer)
}

/// Drops the session.
#[unsafe(no_mangle)]
pub extern "C" fn svc_c_drop(alloc: Global, handle: &mut Handle)
    requires { IsSome handle.old.session }
    ensures { handle.new.session ≡ None }
{
    drop(mem::replace(handle, Handle::none(alloc)).into_box());
}

/// The text of a number that a call answered, at the front of `out`, as far as it fits, and its
/// length.
#[unsafe(no_mangle)]
pub extern "C" fn svc_c_reason(number: u32, out: &mut [u8]) -> u64
    ensures { Gives number out.old out.new result }
{
    put_front(reason(number).as_bytes(), out) as u64
}
