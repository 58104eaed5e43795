//! What a server is configured with: its settings, and the flags that it is started with.
ghost use Rattle.std.specs.Prelude.{◌≡◌, if◌then◌else◌, Ok, Err};
ghost use Rattle.svc_conf.specs.OptionalNumbers.{is_zero, is_above, offload_of};

mod cuts;
mod field;
mod key;
mod kind;
mod place;
mod read_error;
mod reading;
mod said;
mod values;
mod words;
mod yaml;

pub use key::Key;
pub use read_error::ReadError;
use std::alloc::Global;
use svc_base::{NoMemory, Text, Texts};
pub use svc_base::{RuntimeMetricsOpts, RuntimeMetricsPollTimeHistogramScale, RuntimeOpts};
pub use words::OptError;

const MAX_RUNTIME_METRICS_POLL_TIME_HISTOGRAM_BUCKETS: u64 = 1024;

/// The settings of a server.
#[derive(PartialEq, Eq, Drop)]
pub struct ServerConf {
    /// The version of the settings. Nothing looks at it.
    pub version: u64,
    /// Whether the process runs in the background.
    pub daemon: bool,
    /// The file that a daemon's errors go to. Standard error where unset.
    pub error_log: Option<Text>,
    /// The file that a daemon writes its process's number to.
    pub pid_file: Text,
    /// The path of the socket over which an old server hands its descriptors to a new one. Both need
    /// the same.
    pub upgrade_sock: Text,
    /// The user that a daemon becomes before it serves.
    pub user: Option<Text>,
    /// The group that a daemon becomes before it serves.
    pub group: Option<Text>,
    /// The directory that a daemon changes to.
    pub working_directory: Option<Text>,
    /// How many threads each service has of its own.
    pub threads: u64,
    /// How many tasks accept on each listening descriptor. At least 1.
    pub listener_tasks_per_fd: u64,
    /// Whether the threads of one service take work from each other.
    pub work_stealing: bool,
    /// Whether services use the runtime's alternative timer.
    pub runtime_enable_alt_timer: bool,
    /// The file of the certificate authorities that are trusted. The system's where unset.
    pub ca_file: Option<Text>,
    /// Seconds between the signal of a graceful shutdown and its last step. 300 where unset.
    pub grace_period_seconds: Option<u64>,
    /// Seconds that the last step of a graceful shutdown may take. 5 where unset.
    pub graceful_shutdown_timeout_seconds: Option<u64>,
    /// The IPv4 addresses that connections to upstream servers are bound to.
    pub client_bind_to_ipv4: Texts,
    /// The IPv6 addresses that connections to upstream servers are bound to.
    pub client_bind_to_ipv6: Texts,
    /// How many idle connections to upstream servers are kept.
    pub upstream_keepalive_pool_size: u64,
    /// How many pools of threads connect to upstream servers. Unset or 0: connecting has no pools of
    /// its own.
    pub upstream_connect_offload_threadpools: Option<u64>,
    /// How many threads each of these pools has.
    pub upstream_connect_offload_thread_per_pool: Option<u64>,
    /// How many pools of threads do the TLS handshakes of accepted connections. Unset or 0: they have
    /// no pools of their own.
    pub downstream_tls_offload_threadpools: Option<u64>,
    /// How many threads each of these pools has.
    pub downstream_tls_offload_thread_per_pool: Option<u64>,
    /// Whether the TLS keys of connections to upstream servers may be written to a file, so that
    /// their traffic can be read.
    pub upstream_debug_ssl_keylog: bool,
    /// How often a request that may be repeated is repeated at most.
    pub max_retries: u64,
    /// How often connecting and accepting at `upgrade_sock` are tried again at most. 5 where unset.
    pub upgrade_sock_connect_accept_max_retries: Option<u64>,
    /// How many threads for blocking work each runtime has at most. Not 0; the runtime decides where
    /// unset.
    pub max_blocking_threads: Option<u64>,
    /// Seconds that an idle thread for blocking work is kept. The runtime decides where unset.
    pub blocking_threads_ttl_seconds: Option<u64>,
    /// Timeouts of more seconds than this are left to the runtime. Unset: none is.
    pub fast_timeout_to_tokio_threshold_seconds: Option<u64>,
    /// Whether runtimes keep a histogram of how long polls take.
    pub runtime_metrics_poll_time_histogram: bool,
    /// How the histogram's buckets grow. The runtime decides where unset.
    pub runtime_metrics_poll_time_histogram_scale: Option<RuntimeMetricsPollTimeHistogramScale>,
    /// The width of the histogram's first bucket, in microseconds. Not 0; the runtime decides where
    /// unset.
    pub runtime_metrics_poll_time_histogram_resolution_micros: Option<u64>,
    /// How many buckets the histogram has. 1 to 1,024; the runtime decides where unset.
    pub runtime_metrics_poll_time_histogram_buckets: Option<u64>,
    /// Whether the parent of a daemon waits until the daemon is ready.
    pub daemon_wait_for_ready: bool,
    /// Seconds that the parent waits for its daemon. Not 0; 600 where unset.
    pub daemon_ready_timeout_seconds: Option<u64>,
    /// Seconds for which a daemon tries again to tell its parent that it is ready, where it isn't
    /// permitted to. Not 0; 60 where unset.
    pub daemon_notify_timeout_seconds: Option<u64>,
}

/// The flags that a server is started with.
#[derive(Default, Drop)]
pub struct Opt {
    /// Take over from the server that runs.
    pub upgrade: bool,
    /// Run in the background.
    pub daemon: bool,
    /// Has no effect.
    pub nocapture: bool,
    /// Test the configuration and end.
    pub test: bool,
    /// The path of the file that the settings are read from.
    pub conf: Option<Text>,
}

impl ServerConf {
    ghost use Rattle.std.specs.Prelude.{◌≡◌, ◌||◌, IfOk};
    ghost use Rattle.svc_conf.specs.OptionalNumbers.{offload_of};
    ghost use Rattle.svc_conf.specs.Configuration.{defaults, judged, runtime_opts_of};

    /// What each setting is where nothing sets it. `NoMemory` where there is none for the paths.
    pub fn default(alloc: Global) -> Result<ServerConf, NoMemory>
        ensures { IfOk result (λ conf. conf ≡ defaults) }
    {
        let pid_file = Text::new(alloc, "/tmp/pingora.pid")?;
        let upgrade_sock = Text::new(alloc, "/tmp/pingora_upgrade.sock")?;
        Ok(ServerConf::with_files(alloc, pid_file, upgrade_sock))
    }

    fn with_files(alloc: Global, pid_file: Text, upgrade_sock: Text) -> ServerConf
        ensures { result ≡ record defaults { pid_file = pid_file; upgrade_sock = upgrade_sock } }
    {
        ServerConf {
            version: 0,
            daemon: false,
            error_log: None,
            pid_file,
            upgrade_sock,
            user: None,
            group: None,
            working_directory: None,
            threads: 1,
            listener_tasks_per_fd: 1,
            work_stealing: true,
            runtime_enable_alt_timer: false,
            ca_file: None,
            grace_period_seconds: None,
            graceful_shutdown_timeout_seconds: None,
            client_bind_to_ipv4: Texts::new(alloc),
            client_bind_to_ipv6: Texts::new(alloc),
            upstream_keepalive_pool_size: 128,
            upstream_connect_offload_threadpools: None,
            upstream_connect_offload_thread_per_pool: None,
            downstream_tls_offload_threadpools: None,
            downstream_tls_offload_thread_per_pool: None,
            upstream_debug_ssl_keylog: false,
            max_retries: 16,
            upgrade_sock_connect_accept_max_retries: None,
            max_blocking_threads: None,
            blocking_threads_ttl_seconds: None,
            fast_timeout_to_tokio_threshold_seconds: Some(900),
            runtime_metrics_poll_time_histogram: false,
            runtime_metrics_poll_time_histogram_scale: None,
            runtime_metrics_poll_time_histogram_resolution_micros: None,
            runtime_metrics_poll_time_histogram_buckets: None,
            daemon_wait_for_ready: false,
            daemon_ready_timeout_seconds: None,
            daemon_notify_timeout_seconds: None,
        }
    }

    /// Refuses settings that no server can run with, by the first offending key. It looks at them in
    /// this order: `max_blocking_threads` 0, the histogram's resolution 0, its buckets 0 or above
    /// 1,024, `listener_tasks_per_fd` 0, the daemon's timeouts 0.
    pub fn validate(&self) -> Result<(), Key>
        ensures { result ≡ judged self.now }
    {
        let resolution = self.runtime_metrics_poll_time_histogram_resolution_micros;
        let buckets = self.runtime_metrics_poll_time_histogram_buckets;
        not_zero(self.max_blocking_threads, Key::MaxBlockingThreads)?;
        not_zero(
            resolution,
            Key::RuntimeMetricsPollTimeHistogramResolutionMicros,
        )?;
        not_zero(buckets, Key::RuntimeMetricsPollTimeHistogramBuckets)?;
        not_above(
            buckets,
            MAX_RUNTIME_METRICS_POLL_TIME_HISTOGRAM_BUCKETS,
            Key::RuntimeMetricsPollTimeHistogramBuckets,
        )?;
        not_zero(Some(self.listener_tasks_per_fd), Key::ListenerTasksPerFd)?;
        not_zero(
            self.daemon_ready_timeout_seconds,
            Key::DaemonReadyTimeoutSeconds,
        )?;
        not_zero(
            self.daemon_notify_timeout_seconds,
            Key::DaemonNotifyTimeoutSeconds,
        )
    }

    /// The numbers of pools and of threads in each pool that connect to upstream servers: None unless
    /// both are set and above 0.
    pub fn upstream_connect_offload_threadpool(&self) -> Option<(u64, u64)>
        ensures { result
            ≡ offload_of self.now.upstream_connect_offload_threadpools
            self.now.upstream_connect_offload_thread_per_pool }
    {
        offload(
            self.upstream_connect_offload_threadpools,
            self.upstream_connect_offload_thread_per_pool,
        )
    }

    /// The numbers of pools and of threads in each pool that do the TLS handshakes of accepted
    /// connections: None unless both are set and above 0.
    pub fn downstream_tls_offload_threadpool(&self) -> Option<(u64, u64)>
        ensures { result
            ≡ offload_of self.now.downstream_tls_offload_threadpools
            self.now.downstream_tls_offload_thread_per_pool }
    {
        offload(
            self.downstream_tls_offload_threadpools,
            self.downstream_tls_offload_thread_per_pool,
        )
    }

    /// The options of a runtime that these settings ask for.
    pub fn runtime_opts(&self) -> RuntimeOpts
        ensures { result ≡ runtime_opts_of self.now }
    {
        let resolution = self.runtime_metrics_poll_time_histogram_resolution_micros;
        RuntimeOpts {
            metrics: RuntimeMetricsOpts {
                poll_time_histogram: self.runtime_metrics_poll_time_histogram,
                poll_time_histogram_scale: self.runtime_metrics_poll_time_histogram_scale,
                poll_time_histogram_resolution: resolution,
                poll_time_histogram_buckets: self.runtime_metrics_poll_time_histogram_buckets,
            },
            enable_alt_timer: self.runtime_enable_alt_timer,
        }
    }

    /// Sets `daemon` where the flag is given.
    pub fn merge_with_opt(&mut self, opt: &Opt)
        ensures { self.new ≡ record self.old { daemon = self.old.daemon || opt.now.daemon } }
    {
        if opt.daemon {
            self.daemon = true;
        }
    }
}

fn not_zero(number: Option<u64>, key: Key) -> Result<(), Key>
    ensures { result ≡ (if is_zero number then Err key else Ok tt) }
{
    if number == Some(0) { Err(key) } else { Ok(()) }
}

fn not_above(number: Option<u64>, limit: u64, key: Key) -> Result<(), Key>
    ensures { result ≡ (if is_above limit number then Err key else Ok tt) }
{
    match number {
        Some(number) if number > limit => Err(key),
        _ => Ok(()),
    }
}

fn offload(pools: Option<u64>, threads_per_pool: Option<u64>) -> Option<(u64, u64)>
    ensures { result ≡ offload_of pools threads_per_pool }
{
    pools
        .zip(threads_per_pool)
        .filter(|(pools, threads)| *pools > 0 && *threads > 0)
}
