//! What a line of a configuration text says.

ghost use Rattle.std.specs.Prelude.{◌≡◌, [], OnOk};
ghost use Rattle.std.specs.List.{push};

use super::field::{FlagKey, ListKey, NumberKey, OptionalNumberKey, OptionalTextKey, TextKey};
use crate::server::configuration::ServerConf;
use std::alloc::Global;
use svc_base::{NoMemory, RuntimeMetricsPollTimeHistogramScale, Text, Texts};

/// The value of a key, or an item of a list.
#[derive(Drop)]
pub enum Said {
    /// A number.
    Number(NumberKey, u64),
    /// A flag.
    Flag(FlagKey, bool),
    /// A text.
    Text(TextKey, Text),
    /// A text, or that there is none.
    OptionalText(OptionalTextKey, Option<Text>),
    /// A number, or that there is none.
    OptionalNumber(OptionalNumberKey, Option<u64>),
    /// How the histogram's buckets grow, or that it isn't said.
    Scale(Option<RuntimeMetricsPollTimeHistogramScale>),
    /// The list without items.
    Empty(ListKey),
    /// An item of the list.
    Item(ListKey, Text),
}

/// Appends a text. One for which no memory was found is dropped.
fn push_text(alloc: Global, list: &mut Texts, text: Text) -> Result<(), NoMemory>
    ensures { OnOk result (list.new ≡ push list.old text) }
{
    match list.push(alloc, text) {
        Ok(()) => Ok(()),
        Err(refused) => Err(refused.reason),
    }
}

impl ServerConf {
    ghost use Rattle.svc_conf.specs.Fields.{set_number, set_flag, set_text, set_optional_text, set_optional_number, set_list, held_list};
    ghost use Rattle.svc_conf.specs.ConfigurationText.{set_said};

    fn set_number(&mut self, key: NumberKey, value: u64)
        ensures { self.new ≡ set_number key value self.old }
    {
        match key {
            NumberKey::Version => self.version = value,
            NumberKey::Threads => self.threads = value,
            NumberKey::ListenerTasksPerFd => self.listener_tasks_per_fd = value,
            NumberKey::UpstreamKeepalivePoolSize => self.upstream_keepalive_pool_size = value,
            NumberKey::MaxRetries => self.max_retries = value,
        }
    }

    fn set_flag(&mut self, key: FlagKey, value: bool)
        ensures { self.new ≡ set_flag key value self.old }
    {
        match key {
            FlagKey::Daemon => self.daemon = value,
            FlagKey::WorkStealing => self.work_stealing = value,
            FlagKey::RuntimeEnableAltTimer => self.runtime_enable_alt_timer = value,
            FlagKey::UpstreamDebugSslKeylog => self.upstream_debug_ssl_keylog = value,
            FlagKey::RuntimeMetricsPollTimeHistogram => self.runtime_metrics_poll_time_histogram =
                value,
            FlagKey::DaemonWaitForReady => self.daemon_wait_for_ready = value,
        }
    }

    fn set_text(&mut self, key: TextKey, value: Text)
        ensures { self.new ≡ set_text key value self.old }
    {
        match key {
            TextKey::PidFile => self.pid_file = value,
            TextKey::UpgradeSock => self.upgrade_sock = value,
        }
    }

    fn set_optional_text(&mut self, key: OptionalTextKey, value: Option<Text>)
        ensures { self.new ≡ set_optional_text key value self.old }
    {
        match key {
            OptionalTextKey::ErrorLog => self.error_log = value,
            OptionalTextKey::User => self.user = value,
            OptionalTextKey::Group => self.group = value,
            OptionalTextKey::WorkingDirectory => self.working_directory = value,
            OptionalTextKey::CaFile => self.ca_file = value,
        }
    }

    fn set_optional_number(&mut self, key: OptionalNumberKey, value: Option<u64>)
        ensures { self.new ≡ set_optional_number key value self.old }
    {
        match key {
            OptionalNumberKey::GracePeriodSeconds => self.grace_period_seconds = value,
            OptionalNumberKey::GracefulShutdownTimeoutSeconds =>
                self.graceful_shutdown_timeout_seconds = value,
            OptionalNumberKey::UpstreamConnectOffloadThreadpools =>
                self.upstream_connect_offload_threadpools = value,
            OptionalNumberKey::UpstreamConnectOffloadThreadPerPool =>
                self.upstream_connect_offload_thread_per_pool = value,
            OptionalNumberKey::DownstreamTlsOffloadThreadpools =>
                self.downstream_tls_offload_threadpools = value,
            OptionalNumberKey::DownstreamTlsOffloadThreadPerPool =>
                self.downstream_tls_offload_thread_per_pool = value,
            OptionalNumberKey::UpgradeSockConnectAcceptMaxRetries =>
                self.upgrade_sock_connect_accept_max_retries = value,
            OptionalNumberKey::MaxBlockingThreads => self.max_blocking_threads = value,
            OptionalNumberKey::BlockingThreadsTtlSeconds => self.blocking_threads_ttl_seconds =
                value,
            OptionalNumberKey::FastTimeoutToTokioThresholdSeconds =>
                self.fast_timeout_to_tokio_threshold_seconds = value,
            OptionalNumberKey::RuntimeMetricsPollTimeHistogramResolutionMicros =>
                self.runtime_metrics_poll_time_histogram_resolution_micros = value,
            OptionalNumberKey::RuntimeMetricsPollTimeHistogramBuckets =>
                self.runtime_metrics_poll_time_histogram_buckets = value,
            OptionalNumberKey::DaemonReadyTimeoutSeconds => self.daemon_ready_timeout_seconds =
                value,
            OptionalNumberKey::DaemonNotifyTimeoutSeconds => self.daemon_notify_timeout_seconds =
                value,
        }
    }

    fn clear_list(&mut self, alloc: Global, list: ListKey)
        ensures { self.new ≡ set_list list [] self.old }
    {
        match list {
            ListKey::ClientBindToIpv4 => self.client_bind_to_ipv4 = Texts::new(alloc),
            ListKey::ClientBindToIpv6 => self.client_bind_to_ipv6 = Texts::new(alloc),
        }
    }

    fn add_item(&mut self, alloc: Global, list: ListKey, text: Text) -> Result<(), NoMemory>
        ensures { OnOk result (self.new ≡ set_list list (push (held_list list self.old) text) self.old) }
    {
        match list {
            ListKey::ClientBindToIpv4 => push_text(alloc, &mut self.client_bind_to_ipv4, text),
            ListKey::ClientBindToIpv6 => push_text(alloc, &mut self.client_bind_to_ipv6, text),
        }
    }

    /// Takes over what a line says.
    pub(super) fn set_said(&mut self, alloc: Global, said: Said) -> Result<(), NoMemory>
        ensures { OnOk result (self.new ≡ set_said said self.old) }
    {
        match said {
            Said::Number(key, value) => self.set_number(key, value),
            Said::Flag(key, value) => self.set_flag(key, value),
            Said::Text(key, value) => self.set_text(key, value),
            Said::OptionalText(key, value) => self.set_optional_text(key, value),
            Said::OptionalNumber(key, value) => self.set_optional_number(key, value),
            Said::Scale(value) => self.runtime_metrics_poll_time_histogram_scale = value,
            Said::Empty(list) => self.clear_list(alloc, list),
            Said::Item(list, text) => self.add_item(alloc, list, text)?,
        }
        Ok(())
    }
}
