//! A definition stands twice, as a fact and as a test that computes: both say the same.

ghost use Rattle.std.specs.Prelude.{◌≡◌, ◌↔◌, ◌&&◌, Bool, true};
ghost use Rattle.svc_record.specs.declared.plan.Plan.{Plan};
ghost use Rattle.svc_record.specs.AskRules.{FailsRight, fails_right};
ghost use Rattle.svc_record.specs.Boot.{BootRight, boot_right};
ghost use Rattle.svc_record.specs.Closes.{ClosesRight, closes_right};
ghost use Rattle.svc_record.specs.Connections.{ConnRight, conn_right};
ghost use Rattle.svc_record.specs.Drain.{Drain, PhasesRight, drain_right, phases_right};
ghost use Rattle.svc_record.specs.Endpoints.{EndpointsRight, EndpointsRightLate, endpoints_right, endpoints_right_late};
ghost use Rattle.svc_record.specs.Ends.{TestedRight, tested_right};
ghost use Rattle.svc_record.specs.Facts.{Settled};
ghost use Rattle.svc_record.specs.Offer.{OfferRight, offer_due, offer_right};
ghost use Rattle.svc_record.specs.Record.{Record, EachSettled, each_entry};
ghost use Rattle.svc_record.specs.Right.{
  EndedRight,
  LastStepRight,
  OpenRight,
  Right,
  Served,
  ServesRight,
  SettledRight,
  Stronger,
  ended_right,
  is_right,
  is_served,
  is_stronger,
  last_step_right,
  open_right,
  serves_right,
  settled_right,
};
ghost use Rattle.svc_record.specs.Starts.{StartsRight, start_due, starts_right};

/// A record is right exactly if it passes the test of one.
pub fn right_is_tested()
    ensures passes { (p : Plan) (r : Record) → Right p r → is_right p r ≡ true }
    ensures right { (p : Plan) (r : Record) → is_right p r ≡ true → Right p r }
{}

/// A record is one of a run that served exactly if it passes the test of one.
pub fn served_is_tested()
    ensures passes { (p : Plan) (r : Record) → Served p r → is_served p r ≡ true }
    ensures served { (p : Plan) (r : Record) → is_served p r ≡ true → Served p r }
{}

/// What a test says of each settled prefix by going through the record holds of the record and of what
/// stands before each of its events, and of nothing else.
pub fn settled_prefixes()
    ensures each { (test : Record → Bool) (r q : Record) → EachSettled (λ at. test at ≡ true) r → Settled q r → test q ≡ true }
    ensures from_each { (test : Record → Bool) (r : Record) → ((q : Record) → Settled q r → test q ≡ true)
        → EachSettled (λ at. test at ≡ true) r }
{}

/// So does each definition that these two are made of, of every record, also of one in which the run
/// has ended.
pub fn parts_are_tested()
    ensures starts { (p : Plan) (q : Record) → StartsRight p q ↔ ((starts_right p q && each_entry (start_due p) q) ≡ true) }
    ensures endpoints { (p : Plan) (q : Record) → EndpointsRight p q ↔ (endpoints_right p q ≡ true) }
    ensures endpoints_late { (p : Plan) (q : Record) → EndpointsRightLate p q ↔ (endpoints_right_late p q ≡ true) }
    ensures closes { (p : Plan) (q : Record) → ClosesRight p q ↔ (closes_right p q ≡ true) }
    ensures fails { (p : Plan) (q : Record) → FailsRight p q ↔ (fails_right p q ≡ true) }
    ensures boot { (p : Plan) (q : Record) → BootRight p q ↔ (boot_right p q ≡ true) }
    ensures offer { (p : Plan) (q : Record) → OfferRight p q ↔ ((offer_right p q && each_entry (offer_due p) q) ≡ true) }
    ensures connections { (p : Plan) (q : Record) → ConnRight p q ↔ (conn_right p q ≡ true) }
    ensures phases { (p : Plan) (q : Record) → PhasesRight p q ↔ (phases_right p q ≡ true) }
    ensures drain { (p : Plan) (q : Record) → Drain p q ↔ (drain_right p q ≡ true) }
    ensures ended { (p : Plan) (q : Record) → EndedRight p q ↔ (ended_right p q ≡ true) }
    ensures tested { (p : Plan) (q : Record) → TestedRight p q ↔ (tested_right p q ≡ true) }
    ensures open_ { (p : Plan) (q : Record) → OpenRight p q ↔ (open_right p q ≡ true) }
    ensures settled { (p : Plan) (q : Record) → SettledRight p q ↔ (settled_right p q ≡ true) }
    ensures serves { (p : Plan) (q : Record) → ServesRight p q ↔ (serves_right p q ≡ true) }
    ensures last_step { (p : Plan) (q : Record) → LastStepRight p q ↔ (last_step_right p q ≡ true) }
    ensures stronger { (p : Plan) (q : Record) → Stronger p q ↔ (is_stronger p q ≡ true) }
{}
