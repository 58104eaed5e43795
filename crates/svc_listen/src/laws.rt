//! A law of listeners, over the definitions alone.

ghost use Rattle.std.specs.Prelude.{ℕ, List};
ghost use Rattle.svc_listen.specs.EndpointData.{ConfigData, ListenersData};
ghost use Rattle.svc_listen.specs.Endpoints.{with_filter, with_callback, all_added, AreFiltered, AreCalledBack};

/// A filter that is set reaches each endpoint that is there, and each of those that are added later, as
/// long as no other is set; so does a callback.
pub fn set_for_earlier_and_later()
    ensures filter { (listeners : ListenersData) (filter : ℕ) (later : List ConfigData)
        → AreFiltered filter (all_added (with_filter filter listeners) later) }
    ensures callback { (listeners : ListenersData) (callback : ℕ) (later : List ConfigData)
        → AreCalledBack callback (all_added (with_callback callback listeners) later) }
{}
