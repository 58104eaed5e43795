//! Bootstrapping by itself, and the service as which a server bootstraps.

ghost use Rattle.std.specs.Prelude.{◌≡◌, ◌++◌, [], Some, None, true, codes, is_some, unwrap_or, OnOk, OnErr, IfOk};
ghost use Rattle.std.specs.Borrow.{sem};
ghost use Rattle.std.specs.Option.{option_copied};
ghost use Rattle.svc_base.specs.Items.{list_of};
ghost use Rattle.svc_graph.specs.declared.plan.Kind.TheVariants as kinds;
ghost use Rattle.svc_fds.specs.Tables.{kept, unclaimed};
ghost use Rattle.svc_boot.specs.BootEffects.{unbegun, begun_from, told_from, end_from};
ghost use Rattle.svc_bootstrap.specs.BootstrapData.{tests, takes_over};
ghost use Rattle.svc_bootstrap.specs.Lending.{LendsFds};

use std::alloc::Global;
use std::collections::BTreeSet;
use std::marker::Model;
use svc_base::{NoMemory, Text};
use svc_boot::Boot;
use svc_conf::{Opt, ServerConf};
use svc_fds::{Fd, Fds, MAX_RETRY};
use svc_graph::services::{RunPoll, ServiceReadyNotifier, ServiceWithDependents, StartPoll};
use svc_graph::{EndpointPlan, Kind};
use svc_record::{Actions, StepEnd};

/// What a server is bootstrapped with: its flags, the parent that is notified, and the table of the
/// sockets that it takes over. When it is dropped, the descriptors that it still holds are spent.
pub struct Bootstrap {
    test: bool,
    upgrade: bool,
    notify_parent_pid: Option<u32>,
    boot: Boot,
    fds: Fds,
}

impl Model for Bootstrap {
    ghost use Rattle.svc_bootstrap.specs.BootstrapData.{BootstrapData};

    ghost Value = { BootstrapData };

    ghost view = { λ b. record { test = b.test; upgrade = b.upgrade; parent = b.notify_parent_pid; boot = b.boot; fds = b.fds } };
}

/// Spends each descriptor of a table.
fn spend(mut fds: Fds) {
    while let Some((_, fd)) = fds.pop_first() {
        let _ = fd.close();
    }
    fds.finish();
}

impl Drop for Bootstrap {
    fn drop(self) {
        let Bootstrap {
            test: _,
            upgrade: _,
            notify_parent_pid: _,
            boot: _,
            fds,
        } = self;
        spend(fds);
    }
}

impl Bootstrap {
    /// Nothing has begun, no parent is notified, and the table is empty. Without flags the run neither
    /// tests nor takes over.
    pub fn new(alloc: Global, options: Option<&Opt>, conf: &ServerConf) -> Bootstrap
        ensures flags { (result.test ≡ tests (option_copied options.entry)) × (result.upgrade ≡ takes_over (option_copied options.entry)) }
        ensures boot { result.boot ≡ unbegun (unwrap_or conf.now.upgrade_sock_connect_accept_max_retries MAX_RETRY) }
        ensures alone { result.parent ≡ None }
        ensures empty { result.fds.entries ≡ [] }
    {
        let (test, upgrade) = match options {
            Some(opt) => (opt.test, opt.upgrade),
            None => (false, false),
        };
        let limit = conf
            .upgrade_sock_connect_accept_max_retries
            .unwrap_or(MAX_RETRY);
        Bootstrap {
            test,
            upgrade,
            notify_parent_pid: None,
            boot: Boot::new(limit),
            fds: Fds::new(alloc),
        }
    }

    /// The process with this number is the parent, which is notified as bootstrapping begins.
    pub fn set_notify_parent_pid(&mut self, pid: u32)
        ensures { self.new ≡ record self.old { parent = Some pid } }
    {
        self.notify_parent_pid = Some(pid);
    }

    /// Takes the sockets out of the table whose addresses aren't expected. They come back in
    /// ascending order of the addresses, to be closed. Nothing that is put into the table later is
    /// taken out, so what came is put into it first; by `pruned_before_or_after` of `svc_fds` it is
    /// the same to prune what came before that.
    pub fn set_expected_listen_addrs(
        &mut self,
        alloc: Global,
        addrs: BTreeSet<Text>,
    ) -> Result<Vec<(Text, Fd)>, NoMemory>
        ensures left { OnOk result (self.new.fds.entries ≡ kept addrs.keys self.old.fds.entries) }
        ensures out { IfOk result (λ out. out.items ≡ unclaimed addrs.keys self.old.fds.entries) }
        ensures flags { (self.new.test ≡ self.old.test) × (self.new.upgrade ≡ self.old.upgrade) }
        ensures parent { self.new.parent ≡ self.old.parent }
        ensures boot { self.new.boot ≡ self.old.boot }
        ensures unchanged { OnErr result (self.new ≡ self.old) }
    {
        self.fds.close_unclaimed(alloc, &addrs)
    }

    /// Tells at the moment 0 how the server bootstraps, up to the first try to receive where it takes
    /// over. The parent is notified where its number was set and the run doesn't test. The caller puts
    /// what came into the table. A second call tells and changes nothing.
    pub fn bootstrap(&mut self, alloc: Global, actions: &mut Actions) -> Result<StepEnd, NoMemory>
        ensures told { OnOk result (list_of actions.new ≡ list_of actions.old
            ++ told_from self.old.test (is_some self.old.parent) self.old.upgrade self.old.boot 0) }
        ensures after { OnOk result (self.new ≡ record self.old { boot = begun_from self.old.test self.old.upgrade self.old.boot }) }
        ensures end { IfOk result (λ end. end ≡ end_from self.new.test self.new.boot) }
        ensures once { self.old.boot.begun ≡ true → (self.new ≡ self.old) × (list_of actions.new ≡ list_of actions.old) }
        ensures unchanged { OnErr result (self.new ≡ self.old) }
        ensures untold { OnErr result (list_of actions.new ≡ list_of actions.old) }
    {
        actions.reserve(alloc, 4)?;
        let notify = self.notify_parent_pid.is_some();
        self.boot
            .begin_with(self.test, notify, self.upgrade, 0, actions);
        Ok(self.boot.end_with(self.test))
    }

    /// The table of the sockets.
    pub fn get_fds(&self) -> &Fds
        ensures { result.now ≡ self.now.fds }
    {
        &self.fds
    }

    /// The table of the sockets, to put what came into it.
    pub fn fds_mut(&mut self) -> &mut Fds
        ensures* { sem 𝓛 (LendsFds self.entry result) }
    {
        &mut self.fds
    }
}

/// The service as which a server bootstraps: it starts when its dependencies are ready, and the
/// core then tells what bootstrapping tells. It listens nowhere.
#[derive(Drop)]
pub struct BootstrapService;

impl BootstrapService {
    /// The service. There is only one value of it.
    pub fn new() -> Self
        ensures { result ≡ record {} }
    {
        BootstrapService
    }
}

impl ServiceWithDependents for BootstrapService {
    ghost named = { λ _. codes "BG Bootstrap Service" };

    ghost of_kind = { λ _. kinds.Bootstrap };

    ghost declares = { λ _. Some [] };

    fn poll_start(
        &mut self,
        _shutdown: bool,
        _listeners_per_fd: u64,
        notifier: ServiceReadyNotifier,
    ) -> StartPoll {
        notifier.notify_ready();
        StartPoll::Ended
    }

    fn poll_run(&mut self, _shutdown: bool) -> RunPoll {
        RunPoll::Ended
    }

    fn name(&self) -> &str {
        "BG Bootstrap Service"
    }

    fn threads(&self) -> Option<u64>
        ensures { result ≡ Some 1 }
    {
        Some(1)
    }

    fn listen_addresses(&self, alloc: Global) -> Result<Option<Vec<Text>>, NoMemory> {
        Ok(Some(Vec::new(alloc)))
    }

    fn kind(&self) -> Kind {
        Kind::Bootstrap
    }

    fn listener_configs(&self, alloc: Global) -> Result<Vec<EndpointPlan>, NoMemory> {
        Ok(Vec::new(alloc))
    }
}
