//! How a journal ends.

ghost use Rattle.std.specs.Prelude.{◌≡◌};
ghost use Rattle.svc_echo.specs.Endings.{is_stop, is_terminated, stops, ends_with_stop};

use svc_record::{Action, ExecutionPhase};
use svc_shared::Post;

fn is_stop(action: &Action) -> bool
    ensures { result ≡ is_stop action.now }
{
    matches!(action, Action::Stop(_))
}

fn is_terminated(action: &Action) -> bool
    ensures { result ≡ is_terminated action.now }
{
    matches!(action, Action::Phase(ExecutionPhase::Terminated, _))
}

/// The last two actions stop the services' workers and say that the server has ended.
fn stops(actions: &[Action]) -> bool
    ensures { result ≡ stops actions.now }
{
    let mut stopped = false;
    let mut ended = false;
    for action in actions {
        ended = stopped && is_terminated(action);
        stopped = is_stop(action);
    }
    ended
}

/// The last post stops the server.
pub(crate) fn ends_with_stop(posts: &[Post]) -> bool
    ensures { result ≡ ends_with_stop posts.now }
{
    match posts.last() {
        Some(post) => stops(post.actions.as_slice()),
        None => false,
    }
}
