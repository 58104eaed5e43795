//! What follows for every right record.

ghost use Rattle.std.specs.Prelude.{◌≡◌, true, false, List, [], ◌∷◌};
ghost use Rattle.svc_record.specs.declared.plan.Plan.{Plan};
ghost use Rattle.svc_record.specs.declared.action.Action.{Action};
ghost use Rattle.svc_record.specs.declared.entry.Entry.TheVariants.{Got};
ghost use Rattle.svc_record.specs.declared.event.Event.{Event};
ghost use Rattle.svc_record.specs.declared.event.Event.TheVariants.{Signal};
ghost use Rattle.svc_record.specs.declared.event.ShutdownSignal.{ShutdownSignal};
ghost use Rattle.svc_record.specs.Record.{Record, EachEntry, tell};
ghost use Rattle.svc_record.specs.Descriptors.{one_live};
ghost use Rattle.svc_record.specs.Due.{is_calm};
ghost use Rattle.svc_record.specs.Ends.{has_ended};
ghost use Rattle.svc_record.specs.Facts.{Settled};
ghost use Rattle.svc_record.specs.Right.{Right};
ghost use Rattle.svc_laws.specs.Asking.{is_single};
ghost use Rattle.svc_laws.specs.Signals.{is_further};

/// No address has two live descriptors in any settled prefix, also in one in which the run has ended.
pub fn one_live_descriptor()
    ensures { (p : Plan) (r q : Record) → Right p r → Settled q r → one_live p q ≡ true }
{}

/// While the run goes on, nothing is asked a second time before it was answered: of one endpoint, of
/// one connection, of the older server, of the successor, of the process.
pub fn one_ask_of_a_kind()
    ensures { (p : Plan) (r q : Record) → Right p r → Settled q r → has_ended p q ≡ false
        → EachEntry (λ e before. is_single e before ≡ true) q }
{}

/// A further signal tells nothing: after one that isn't the first, and isn't a fast one that cuts a
/// graceful wait short, nothing is told before the next event.
pub fn further_signal()
    ensures { (p : Plan) (r before : Record) (kind : ShutdownSignal) (told : List Action) → Right p r → is_further kind before ≡ true
        → Settled (tell (Got (Signal kind) ∷ before) told) r → told ≡ [] }
{}

/// After an event nothing is told before the next one exactly where nothing is due with it: where the record up
/// to the event is right as it is, while the run goes on. So a moment at which nothing is due tells nothing, and
/// one at which something is due tells something, or ends the run.
pub fn nothing_due()
    ensures silent { (p : Plan) (r before : Record) (e : Event) (told : List Action) → Right p r → Settled (tell (Got e ∷ before) told) r
        → is_calm p (Got e ∷ before) ≡ true → told ≡ [] }
    ensures due { (p : Plan) (r before : Record) (e : Event) → Right p r → Settled (Got e ∷ before) r
        → has_ended p (Got e ∷ before) ≡ false → is_calm p (Got e ∷ before) ≡ true }
{}
