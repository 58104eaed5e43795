//! The keys of a configuration.
ghost use Rattle.std.specs.Prelude.{◌≡◌};

/// A field of `ServerConf`.
#[derive(Clone, Copy, PartialEq, Eq, Debug)]
pub enum Key {
    /// The key `version`.
    Version,
    /// The key `daemon`.
    Daemon,
    /// The key `error_log`.
    ErrorLog,
    /// The key `pid_file`.
    PidFile,
    /// The key `upgrade_sock`.
    UpgradeSock,
    /// The key `user`.
    User,
    /// The key `group`.
    Group,
    /// The key `working_directory`.
    WorkingDirectory,
    /// The key `threads`.
    Threads,
    /// The key `listener_tasks_per_fd`.
    ListenerTasksPerFd,
    /// The key `work_stealing`.
    WorkStealing,
    /// The key `runtime_enable_alt_timer`.
    RuntimeEnableAltTimer,
    /// The key `ca_file`.
    CaFile,
    /// The key `grace_period_seconds`.
    GracePeriodSeconds,
    /// The key `graceful_shutdown_timeout_seconds`.
    GracefulShutdownTimeoutSeconds,
    /// The key `client_bind_to_ipv4`.
    ClientBindToIpv4,
    /// The key `client_bind_to_ipv6`.
    ClientBindToIpv6,
    /// The key `upstream_keepalive_pool_size`.
    UpstreamKeepalivePoolSize,
    /// The key `upstream_connect_offload_threadpools`.
    UpstreamConnectOffloadThreadpools,
    /// The key `upstream_connect_offload_thread_per_pool`.
    UpstreamConnectOffloadThreadPerPool,
    /// The key `downstream_tls_offload_threadpools`.
    DownstreamTlsOffloadThreadpools,
    /// The key `downstream_tls_offload_thread_per_pool`.
    DownstreamTlsOffloadThreadPerPool,
    /// The key `upstream_debug_ssl_keylog`.
    UpstreamDebugSslKeylog,
    /// The key `max_retries`.
    MaxRetries,
    /// The key `upgrade_sock_connect_accept_max_retries`.
    UpgradeSockConnectAcceptMaxRetries,
    /// The key `max_blocking_threads`.
    MaxBlockingThreads,
    /// The key `blocking_threads_ttl_seconds`.
    BlockingThreadsTtlSeconds,
    /// The key `fast_timeout_to_tokio_threshold_seconds`.
    FastTimeoutToTokioThresholdSeconds,
    /// The key `runtime_metrics_poll_time_histogram`.
    RuntimeMetricsPollTimeHistogram,
    /// The key `runtime_metrics_poll_time_histogram_scale`.
    RuntimeMetricsPollTimeHistogramScale,
    /// The key `runtime_metrics_poll_time_histogram_resolution_micros`.
    RuntimeMetricsPollTimeHistogramResolutionMicros,
    /// The key `runtime_metrics_poll_time_histogram_buckets`.
    RuntimeMetricsPollTimeHistogramBuckets,
    /// The key `daemon_wait_for_ready`.
    DaemonWaitForReady,
    /// The key `daemon_ready_timeout_seconds`.
    DaemonReadyTimeoutSeconds,
    /// The key `daemon_notify_timeout_seconds`.
    DaemonNotifyTimeoutSeconds,
}

impl Key {
    ghost use Rattle.svc_conf.specs.Keys.{key_name};

    /// The key's text, which is the field's name.
    pub fn name(self) -> &'static str
        ensures { result.now ≡ key_name self }
    {
        match self {
            Key::Version => "version",
            Key::Daemon => "daemon",
            Key::ErrorLog => "error_log",
            Key::PidFile => "pid_file",
            Key::UpgradeSock => "upgrade_sock",
            Key::User => "user",
            Key::Group => "group",
            Key::WorkingDirectory => "working_directory",
            Key::Threads => "threads",
            Key::ListenerTasksPerFd => "listener_tasks_per_fd",
            Key::WorkStealing => "work_stealing",
            Key::RuntimeEnableAltTimer => "runtime_enable_alt_timer",
            Key::CaFile => "ca_file",
            Key::GracePeriodSeconds => "grace_period_seconds",
            Key::GracefulShutdownTimeoutSeconds => "graceful_shutdown_timeout_seconds",
            Key::ClientBindToIpv4 => "client_bind_to_ipv4",
            Key::ClientBindToIpv6 => "client_bind_to_ipv6",
            Key::UpstreamKeepalivePoolSize => "upstream_keepalive_pool_size",
            Key::UpstreamConnectOffloadThreadpools => "upstream_connect_offload_threadpools",
            Key::UpstreamConnectOffloadThreadPerPool => "upstream_connect_offload_thread_per_pool",
            Key::DownstreamTlsOffloadThreadpools => "downstream_tls_offload_threadpools",
            Key::DownstreamTlsOffloadThreadPerPool => "downstream_tls_offload_thread_per_pool",
            Key::UpstreamDebugSslKeylog => "upstream_debug_ssl_keylog",
            Key::MaxRetries => "max_retries",
            Key::UpgradeSockConnectAcceptMaxRetries => "upgrade_sock_connect_accept_max_retries",
            Key::MaxBlockingThreads => "max_blocking_threads",
            Key::BlockingThreadsTtlSeconds => "blocking_threads_ttl_seconds",
            Key::FastTimeoutToTokioThresholdSeconds => "fast_timeout_to_tokio_threshold_seconds",
            Key::RuntimeMetricsPollTimeHistogram => "runtime_metrics_poll_time_histogram",
            Key::RuntimeMetricsPollTimeHistogramScale =>
                "runtime_metrics_poll_time_histogram_scale",
            Key::RuntimeMetricsPollTimeHistogramResolutionMicros =>
                "runtime_metrics_poll_time_histogram_resolution_micros",
            Key::RuntimeMetricsPollTimeHistogramBuckets =>
                "runtime_metrics_poll_time_histogram_buckets",
            Key::DaemonWaitForReady => "daemon_wait_for_ready",
            Key::DaemonReadyTimeoutSeconds => "daemon_ready_timeout_seconds",
            Key::DaemonNotifyTimeoutSeconds => "daemon_notify_timeout_seconds",
        }
    }
}
