use crate::event::Event;

/// What a host that is made from a list gives next.
#[derive(PartialEq, Eq, Debug, Drop)]
pub enum Item {
    /// This event comes.
    Event(Event),
    /// The host fails.
    Fault,
}
