//! A post of a journal.
use std::marker::Model;
use svc_record::{Actions, Event};

/// One post of a journal: who posted which event, what a filter said, and what was answered.
#[derive(Drop)]
pub struct Post {
    pub seat: u64,
    pub event: Event,
    pub said: bool,
    pub actions: Actions,
}

impl Model for Post {
    ghost use Rattle.svc_base.specs.Items.{list_of};
    ghost use Rattle.svc_record.specs.Journal.{PostData};

    ghost Value = { PostData };

    ghost view = { λ p. record { seat = p.seat; event = p.event; said = p.said; actions = list_of p.actions } };
}
