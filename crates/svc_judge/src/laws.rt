//! What a verdict means.

ghost use Rattle.std.specs.Prelude.{◌≡◌, Some, None, true, false, List};
ghost use Rattle.svc_record.specs.declared.plan.Plan.{Plan};
ghost use Rattle.svc_record.specs.Record.{Record};
ghost use Rattle.svc_record.specs.Drain.{waits_are_over};
ghost use Rattle.svc_record.specs.Right.{is_right, is_served};
ghost use Rattle.svc_record.specs.Fits.{fits};
ghost use Rattle.svc_record.specs.declared.event.Event.{Event};
ghost use Rattle.svc_record.specs.declared.action.Action.{Action};
ghost use Rattle.svc_judge.specs.declared.judging.Breach.{Breach};
ghost use Rattle.svc_judge.specs.Anew.{new_breach};
ghost use Rattle.svc_judge.specs.Verdicts.{step_breach, breach_below, breach_of, FirstBreach};
ghost use Rattle.svc_judge.specs.Tails.{closed_breach, stray_breach, IsClosedRight};

/// A record has no breach exactly where it is right, and the breach of one that isn't is the first: the rule is broken at its place, and
/// what stands before an event up to there is right.
pub fn breaches_are_first()
    ensures right { (p : Plan) (r : Record) → breach_of p r ≡ None → is_right p r ≡ true }
    ensures unbroken { (p : Plan) (r : Record) → is_right p r ≡ true → breach_of p r ≡ None }
    ensures first { (p : Plan) (r : Record) (b : Breach) → breach_of p r ≡ Some b → FirstBreach p r b }
{}

/// A right record is that of a run that served exactly where its waits are over.
pub fn right_records_served()
    ensures { (p : Plan) (r : Record) → breach_of p r ≡ None → is_served p r ≡ waits_are_over p r }
{}

/// Where no rule is broken up to the last event, the first that the settled prefix breaks is the first that it breaks anew.
pub fn new_breaches_are_first()
    ensures { (p : Plan) (q : Record) → breach_below p q ≡ None → step_breach p q ≡ new_breach p q }
{}

/// Where the record of a run that ended otherwise than by its shutdown breaks no rule, it is a right record, and behind it are only cuts of
/// what was live and closes, by which each descriptor that came is closed once; and one event between the two that doesn't fit, where the run says so.
pub fn ended_records_let_go()
    ensures closed { (p : Plan) (r : Record) → closed_breach p r ≡ None
        → (finished : Record) × ((told : List Action) × IsClosedRight p r finished None told) }
    ensures stray { (p : Plan) (r : Record) → stray_breach p r ≡ None
        → (finished : Record) × ((e : Event) × ((told : List Action) × (IsClosedRight p r finished (Some e) told × (fits p finished e ≡ false)))) }
{}
