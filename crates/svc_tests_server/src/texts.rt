//! The texts of errors.

use crate::checking::prints;
use svc_conf::Key;
use svc_record::BootstrapError;
use svc_server::{AddError, RunError};
use svc_shared::{PostReason, SplitReason};
use svc_text::ScriptError;

#[test]
fn errors_of_a_run_have_texts(rt: HostRuntime) {
    for (error, text) in [
        (
            RunError::Config(Key::ListenerTasksPerFd),
            "the configuration is refused for listener_tasks_per_fd",
        ),
        (RunError::HostFault, "the host failed"),
        (
            RunError::Bootstrap(BootstrapError::Transfer),
            "the handover failed: receiving failed",
        ),
        (
            RunError::Bootstrap(BootstrapError::NoSender),
            "the handover failed: no older server was there",
        ),
        (
            RunError::Bootstrap(BootstrapError::BadMessage),
            "the handover failed: what came is no message",
        ),
        (RunError::Stray(1), "event 1 doesn't fit"),
        (RunError::TurnsSpent, "the turns are spent"),
        (RunError::OutOfEvents, "out of events"),
        (RunError::NoMemory, "out of memory"),
    ] {
        prints(&rt, error, text);
    }
}

#[test]
fn errors_of_an_added_service_have_texts(rt: HostRuntime) {
    let rt = &rt;
    prints(rt, AddError::TooMany, "too many services");
    prints(rt, AddError::TooManyEndpoints, "too many endpoints");
    let address = "endpoint 7 has an address that is empty or too long";
    prints(rt, AddError::BadAddressText(7), address);
    prints(
        rt,
        AddError::UnknownFilter(7),
        "endpoint 7 has an unknown filter",
    );
    prints(rt, AddError::NoMemory, "out of memory");
    prints(rt, ScriptError::Line(3), "line 3 is refused");
    prints(rt, ScriptError::NoMemory, "out of memory");
}

#[test]
fn reasons_of_a_shared_server_have_texts(rt: HostRuntime) {
    let rt = &rt;
    prints(
        rt,
        PostReason::Busy(5),
        "the turn isn't free: its word is 5",
    );
    prints(rt, PostReason::Full, "the journal is full");
    prints(
        rt,
        PostReason::Stray(2),
        "the event doesn't fit after 2 posts",
    );
    prints(rt, PostReason::NoMemory, "out of memory");
    prints(rt, SplitReason::Thin, "the share has one number");
    prints(rt, SplitReason::NoNumber, "no seat number is left");
    prints(rt, SplitReason::NoMemory, "out of memory");
}
