//! Two desks, each with a worker of its own, over one server from its opening to its close.

ghost use Rattle.std.specs.Prelude.{◌≡◌, ◌≤◌, IfOk, IfErr, OnOk};
ghost use Rattle.svc_base.specs.Items.{list_of};
ghost use Rattle.svc_record.specs.Validity.{IsValid};
ghost use Rattle.svc_desk.specs.Desks.{meeting};
ghost use Rattle.svc_desk.specs.Serving.{AreSides, IsOpened, IsJournalOf, IsServed, IsHandedBack, desk_end};
ghost use Rattle.svc_desk.specs.Working.{IsWorked};
ghost use Rattle.svc_shared.specs.Posting.{IsOf};

use crate::desk::Desk;
use crate::stray::StrayList;
use crate::worker::{WorkEnd, Worked, perform_all, work};
use std::alloc::Global;
use std::mem::drop;
use std::sync::Wait;
use std::thread::{Threads, join};
use svc_base::NoMemory;
use svc_record::{Actions, Plan};
use svc_shared::{Gate, Pass, Post, SharedServer};
use thiserror::Error;

/// Why two desks weren't served.
#[derive(Clone, Copy, PartialEq, Eq, Debug, Error)]
pub enum EchoReason {
    /// The plan isn't valid.
    #[error("the plan isn't valid")]
    BadPlan,
    /// There was no memory.
    #[error("out of memory")]
    NoMemory,
}

/// A refused serving. Both desks come back. After `BadPlan` they were asked for nothing.
#[derive(Drop)]
pub struct EchoRefused<D: Drop> {
    pub reason: EchoReason,
    pub left: D,
    pub right: D,
}

/// Two desks after their workers' work, why each worker stopped, its strays, and the server's whole
/// journal.
#[derive(Drop)]
pub struct Echoed<D: Drop> {
    pub left: D,
    pub right: D,
    pub left_end: WorkEnd,
    pub right_end: WorkEnd,
    pub left_strays: StrayList,
    pub right_strays: StrayList,
    pub journal: Vec<Post>,
}

/// A desk after its worker's work.
#[derive(Drop)]
pub(crate) struct Finished<D: Drop> {
    pub desk: D,
    pub worked: Worked,
}

/// A server, its two passes, and what its core told as it began.
#[derive(Drop)]
pub(crate) struct Opened {
    pub server: SharedServer,
    pub left: Pass,
    pub right: Pass,
    pub opening: Actions,
}

/// Lets both desks meet a valid plan, the left one first.
fn meet_both<D: Desk>(
    alloc: Global,
    plan: &Plan,
    left: &mut D,
    right: &mut D,
) -> Result<(), EchoReason>
    ensures valid { OnOk result (IsValid plan.now) }
    ensures left { OnOk result (D.seen left.new ≡ meeting (D.seen left.old)) }
    ensures right { OnOk result (D.seen right.new ≡ meeting (D.seen right.old)) }
    ensures refused { IfErr result (λ reason. IsHandedBack plan.now (D.seen left.old) (D.seen right.old) (D.seen left.new) (D.seen right.new) reason) }
{
    match plan.valid(alloc) {
        Ok(true) => {}
        Ok(false) => return Err(EchoReason::BadPlan),
        Err(NoMemory) => return Err(EchoReason::NoMemory),
    }
    if left.meet(alloc, plan).is_err() {
        return Err(EchoReason::NoMemory);
    }
    if right.meet(alloc, plan).is_err() {
        return Err(EchoReason::NoMemory);
    }
    Ok(())
}

/// Opens a server, and splits its pass.
fn open<R: Wait>(rt: &R, alloc: Global, plan: Plan, limit: u64) -> Result<Opened, NoMemory>
    requires valid { IsValid plan }
    requires limit { limit ≤ 4611686018427387903 }
    ensures opened { IfOk result (λ o. IsOpened plan limit o.server o.left o.right (list_of o.opening)) }
{
    let (server, pass, opening) = SharedServer::new(alloc, plan, limit)?;
    match server.split(rt, alloc, pass) {
        Ok((left, right)) => Ok(Opened {
            server,
            left,
            right,
            opening,
        }),
        Err(_) => unreachable!(),
    }
}

/// One worker, which gives its desk back.
fn work_at<D: Desk + Drop, G: Gate, R: Wait>(
    rt: &R,
    alloc: Global,
    shared: &SharedServer,
    pass: Pass,
    mut desk: D,
    gate: &G,
    turns: u64,
) -> Finished<D>
    requires { IsOf shared.now pass }
    ensures worked { IsWorked shared.now pass turns (D.seen desk) (D.seen result.desk) result.worked }
{
    let worked = work(rt, alloc, shared, pass, &mut desk, gate, turns);
    Finished { desk, worked }
}

/// Both workers run until each has ended.
fn work_both<D: Desk + Drop + Send, G: Gate + Sync, R: Threads + Wait + Sync>(
    rt: &R,
    alloc: Global,
    shared: &SharedServer,
    first: Pass,
    second: Pass,
    left: D,
    right: D,
    gate: &G,
    turns: u64,
) -> (Finished<D>, Finished<D>)
    requires first { IsOf shared.now first }
    requires second { IsOf shared.now second }
    ensures left { IsWorked shared.now first turns (D.seen left) (D.seen result.0.desk) result.0.worked }
    ensures right { IsWorked shared.now second turns (D.seen right) (D.seen result.1.desk) result.1.worked }
{
    join(
        rt,
        || -> Finished<D>
            requires { IsOf shared.now first }
            ensures { IsWorked shared.entry.now first turns (D.seen left) (D.seen result.desk) result.worked }
        { work_at(rt, alloc, shared, first, left, gate, turns) },
        || -> Finished<D>
            requires { IsOf shared.now second }
            ensures { IsWorked shared.entry.now second turns (D.seen right) (D.seen result.desk) result.worked }
        { work_at(rt, alloc, shared, second, right, gate, turns) },
    )
}

/// Joins the two passes of a server, and closes it.
fn close_both(
    alloc: Global,
    server: SharedServer,
    left: Pass,
    right: Pass,
) -> Result<Vec<Post>, NoMemory>
    requires { AreSides server left right 0 1 }
    ensures journal { IfOk result (λ posts. IsJournalOf server left right 0 1 posts.items) }
{
    let whole = server.join(left, right);
    match server.close(alloc, whole) {
        Ok(posts) => Ok(posts),
        Err(_) => Err(NoMemory),
    }
}

/// Both desks come back.
fn refused<D: Drop>(reason: EchoReason, left: D, right: D) -> EchoRefused<D>
    ensures reason { result.reason ≡ reason }
    ensures left { result.left ≡ left }
    ensures right { result.right ≡ right }
{
    EchoRefused {
        reason,
        left,
        right,
    }
}

/// Serves two desks by one server, over a valid plan, and gives back the desks and the journal. The
/// server takes `limit` posts at most. Both desks meet the plan, the left one first. The left desk
/// performs what the server's core tells as it begins. Then a worker of each desk asks it at most
/// `turns` times, on two threads; the left one's seat is 0, the right one's is 1.
///
/// `BadPlan` where the plan isn't valid. Both desks come back with every refusal.
pub fn serve_desks<D: Desk + Drop + Send, G: Gate + Sync, R: Threads + Wait + Sync>(
    rt: &R,
    alloc: Global,
    plan: Plan,
    limit: u64,
    turns: u64,
    mut left: D,
    mut right: D,
    gate: &G,
) -> Result<Echoed<D>, EchoRefused<D>>
    requires { limit ≤ 4611686018427387903 }
    ensures served { IfOk result (λ r. IsServed plan limit turns (D.seen left) (D.seen right)
        (desk_end (D.seen r.left) r.left_end r.left_strays) (desk_end (D.seen r.right) r.right_end r.right_strays) r.journal.items) }
    ensures refused { IfErr result (λ r. IsHandedBack plan (D.seen left) (D.seen right) (D.seen r.left) (D.seen r.right) r.reason) }
{
    if let Err(reason) = meet_both(alloc, &plan, &mut left, &mut right) {
        drop(plan);
        return Err(refused(reason, left, right));
    }
    let Ok(opened) = open(rt, alloc, plan, limit) else {
        return Err(refused(EchoReason::NoMemory, left, right));
    };
    perform_all(&mut left, opened.opening);
    let server = opened.server;
    let (one, two) = work_both(
        rt,
        alloc,
        &server,
        opened.left,
        opened.right,
        left,
        right,
        gate,
        turns,
    );
    let (left, first) = (one.desk, one.worked);
    let (right, second) = (two.desk, two.worked);
    let (left_strays, right_strays) = (first.strays, second.strays);
    let Ok(journal) = close_both(alloc, server, first.pass, second.pass) else {
        drop(left_strays);
        drop(right_strays);
        return Err(refused(EchoReason::NoMemory, left, right));
    };
    Ok(Echoed {
        left,
        right,
        left_end: first.end,
        right_end: second.end,
        left_strays,
        right_strays,
        journal,
    })
}
