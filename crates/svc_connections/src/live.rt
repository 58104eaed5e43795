//! The live connections.

ghost use Rattle.std.specs.Prelude.{◌≡◌, ◌+◌, ◌<◌, ◌≤◌, ◌++◌, ◌^◌, length, Option, None, OnOk, []};
ghost use Rattle.svc_base.specs.Blocks.{joined};
ghost use Rattle.svc_base.specs.Items.{list_of, spare};
ghost use Rattle.svc_connections.specs.ConnectionsState.{stage_of};
ghost use Rattle.svc_connections.specs.ConnectionsEffects.{put_connection, at_stage, without, cuts};

use crate::stage::{Connection, Stage};
use std::alloc::Global;
use std::marker::Model;
use svc_base::{Blocks, Keyed, NoMemory};
use svc_record::{Action, Actions};

/// Live connections in ascending number. Contracts see them, and for how many more there is memory.
/// The one that last came or went on is kept at hand: mostly the next event is its own, and asks for
/// its stage without a search.
#[derive(Drop)]
pub(crate) struct Live {
    connections: Blocks<Connection>,
    latest: Option<Connection>,
}

impl Model for Live {
    ghost use Rattle.std.specs.Prelude.{List, ℕ};
    ghost use Rattle.svc_base.specs.Items.{list_of};
    ghost use Rattle.svc_connections.specs.declared.stage.Connection.{Connection};
    ghost use Rattle.svc_connections.specs.ConnectionsState.{IsLive};

    ghost Value = { List Connection × ℕ };

    ghost view = { λ l. l.connections };

    ghost invariant = { λ l. IsLive (list_of l.connections) l.latest };
}

impl Keyed for Connection {
    ghost key_of = { λ x. x.number };

    fn key(&self) -> u64 {
        self.number
    }
}

/// Cuts each of them.
fn cut_each(entries: &[Connection], actions: &mut Actions)
    requires room { length entries.now ≤ spare actions.old }
    ensures told { list_of actions.new ≡ list_of actions.old ++ cuts entries.now }
    ensures room { spare actions.old ≤ spare actions.new + length entries.now }
{
    for connection in entries {
        actions.put(Action::Cut(connection.number));
    }
}

/// Cuts each of them, block after block.
fn cut_blocks(blocks: &[Vec<Connection>], actions: &mut Actions)
    requires room { length (joined blocks.now) ≤ spare actions.old }
    ensures told { list_of actions.new ≡ list_of actions.old ++ cuts (joined blocks.now) }
    ensures room { spare actions.old ≤ spare actions.new + length (joined blocks.now) }
{
    for block in blocks {
        cut_each(block, actions);
    }
}

impl Live {
    pub(crate) fn new(alloc: Global) -> Live
        ensures { list_of result ≡ [] }
    {
        Live {
            connections: Blocks::new(alloc),
            latest: None,
        }
    }

    /// After it there is room for one more connection.
    pub(crate) fn reserve(&mut self) -> Result<(), NoMemory>
        ensures entries { list_of self.new ≡ list_of self.old }
        ensures room { OnOk result (0 < spare self.new) }
    {
        self.connections.reserve(1)
    }

    pub(crate) fn len(&self) -> usize
        ensures small { result < 2 ^ 59 }
        ensures length { result ≡ length (list_of self.now) }
    {
        self.connections.len()
    }

    /// How far the connection has come, if it is live.
    pub(crate) fn stage_of(&self, c: u64) -> Option<Stage>
        ensures { result ≡ stage_of (list_of self.now) c }
    {
        match self.latest {
            Some(latest) if latest.number == c => Some(latest.stage),
            _ => self.search_stage(c),
        }
    }

    /// The same, by a search.
    fn search_stage(&self, c: u64) -> Option<Stage>
        ensures { result ≡ stage_of (list_of self.now) c }
    {
        match self.connections.find(c) {
            Some(connection) => Some(connection.stage),
            None => None,
        }
    }

    /// Takes a connection that isn't live.
    pub(crate) fn put(&mut self, connection: Connection)
        requires room { 0 < spare self.old }
        requires new { stage_of (list_of self.old) connection.number ≡ None }
        ensures { list_of self.new ≡ put_connection connection (list_of self.old) }
    {
        self.connections.insert(connection);
        self.latest = Some(connection);
    }

    /// The connection has come to the stage, if it is live.
    pub(crate) fn move_to(&mut self, c: u64, stage: Stage)
        ensures { list_of self.new ≡ at_stage c stage (list_of self.old) }
    {
        let connection = Connection { number: c, stage };
        if self.connections.replace(connection) {
            self.latest = Some(connection);
        }
    }

    /// The connection is live no more.
    pub(crate) fn remove(&mut self, c: u64)
        ensures { list_of self.new ≡ without c (list_of self.old) }
    {
        let _ = self.connections.remove(c);
        self.latest = None;
    }

    /// Cuts each connection, in ascending number.
    pub(crate) fn cut_all(&self, actions: &mut Actions)
        requires room { length (list_of self.now) ≤ spare actions.old }
        ensures told { list_of actions.new ≡ list_of actions.old ++ cuts (list_of self.now) }
        ensures room { spare actions.old ≤ spare actions.new + length (list_of self.now) }
    {
        cut_blocks(self.connections.as_blocks(), actions);
    }
}
