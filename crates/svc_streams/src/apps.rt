//! Applications, which are given each connection after its handshake.

ghost use Rattle.std.specs.Prelude.{◌≤◌, List};
ghost use Rattle.svc_streams.specs.Events.{AppCall, Processed, CleanedUp, IsCalled, IsHandled};

/// An application over streams of the type `S`.
pub trait ServerApp<S> {
    // Which calls may come, one after another, with what they give back.
    ghost may_come: { Self → List (AppCall S) → Type 0 };

    /// Serves what came on the stream. It gives the stream back where more may come on it.
    fn process_new(&mut self, event: S, shutdown: bool) -> Option<S>
        ensures { IsCalled may_come self.old self.new
            (Processed (record { event = event; shutdown = shutdown; back = result })) };

    /// Is called once, when the server shuts down.
    fn cleanup(&mut self)
        ensures { IsCalled may_come self.old self.new CleanedUp };
}

/// How the calls of an application with one stream ended.
#[derive(Drop)]
pub enum Handled<S> {
    /// The application kept the stream.
    Done,
    /// All turns are spent, and the application gave the stream back in each of them.
    TurnsSpent(S),
}

/// Calls the application with what came, and then with what it gave back, until it gives nothing
/// back or the turns are spent. At least one turn is wanted.
pub fn handle_event<S, A: ServerApp<S>>(
    app: &mut A,
    event: S,
    shutdown: bool,
    turns: u64,
) -> Handled<S>
    requires { 1 ≤ turns }
    ensures { IsHandled A.may_come app.old app.new event shutdown turns result }
{
    let mut event = event;
    for _ in 0..turns {
        match app.process_new(event, shutdown) {
            Some(back) => event = back,
            None => return Handled::Done,
        }
    }
    Handled::TurnsSpent(event)
}
