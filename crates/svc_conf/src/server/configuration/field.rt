//! What the value of each key is.

ghost use Rattle.std.specs.Prelude.{◌≡◌, ◌∷◌, [], find, false, MatchOption};
ghost use Rattle.std.specs.Str.{bytes_eq};
ghost use Rattle.svc_conf.specs.Keys.{key_name};
ghost use Rattle.svc_conf.specs.declared.server.configuration.field.Field.TheVariants.{OptionalNumber};
ghost use Rattle.svc_conf.specs.Fields.{field_of, key_of};
ghost use Rattle.svc_conf.specs.FieldGroups.{is_optional_number};

use crate::server::configuration::Key;

/// Keys whose value is a number.
#[derive(Clone, Copy)]
pub enum NumberKey {
    /// The key `version`.
    Version,
    /// The key `threads`.
    Threads,
    /// The key `listener_tasks_per_fd`.
    ListenerTasksPerFd,
    /// The key `upstream_keepalive_pool_size`.
    UpstreamKeepalivePoolSize,
    /// The key `max_retries`.
    MaxRetries,
}

/// Keys whose value is a flag.
#[derive(Clone, Copy)]
pub enum FlagKey {
    /// The key `daemon`.
    Daemon,
    /// The key `work_stealing`.
    WorkStealing,
    /// The key `runtime_enable_alt_timer`.
    RuntimeEnableAltTimer,
    /// The key `upstream_debug_ssl_keylog`.
    UpstreamDebugSslKeylog,
    /// The key `runtime_metrics_poll_time_histogram`.
    RuntimeMetricsPollTimeHistogram,
    /// The key `daemon_wait_for_ready`.
    DaemonWaitForReady,
}

/// Keys whose value is a text.
#[derive(Clone, Copy)]
pub enum TextKey {
    /// The key `pid_file`.
    PidFile,
    /// The key `upgrade_sock`.
    UpgradeSock,
}

/// Keys whose value is a text or unset.
#[derive(Clone, Copy)]
pub enum OptionalTextKey {
    /// The key `error_log`.
    ErrorLog,
    /// The key `user`.
    User,
    /// The key `group`.
    Group,
    /// The key `working_directory`.
    WorkingDirectory,
    /// The key `ca_file`.
    CaFile,
}

/// Keys whose value is a number or unset.
#[derive(Clone, Copy)]
pub enum OptionalNumberKey {
    /// The key `grace_period_seconds`.
    GracePeriodSeconds,
    /// The key `graceful_shutdown_timeout_seconds`.
    GracefulShutdownTimeoutSeconds,
    /// The key `upstream_connect_offload_threadpools`.
    UpstreamConnectOffloadThreadpools,
    /// The key `upstream_connect_offload_thread_per_pool`.
    UpstreamConnectOffloadThreadPerPool,
    /// The key `downstream_tls_offload_threadpools`.
    DownstreamTlsOffloadThreadpools,
    /// The key `downstream_tls_offload_thread_per_pool`.
    DownstreamTlsOffloadThreadPerPool,
    /// The key `upgrade_sock_connect_accept_max_retries`.
    UpgradeSockConnectAcceptMaxRetries,
    /// The key `max_blocking_threads`.
    MaxBlockingThreads,
    /// The key `blocking_threads_ttl_seconds`.
    BlockingThreadsTtlSeconds,
    /// The key `fast_timeout_to_tokio_threshold_seconds`.
    FastTimeoutToTokioThresholdSeconds,
    /// The key `runtime_metrics_poll_time_histogram_resolution_micros`.
    RuntimeMetricsPollTimeHistogramResolutionMicros,
    /// The key `runtime_metrics_poll_time_histogram_buckets`.
    RuntimeMetricsPollTimeHistogramBuckets,
    /// The key `daemon_ready_timeout_seconds`.
    DaemonReadyTimeoutSeconds,
    /// The key `daemon_notify_timeout_seconds`.
    DaemonNotifyTimeoutSeconds,
}

/// Keys whose value is a list of texts.
#[derive(Clone, Copy)]
pub enum ListKey {
    /// The key `client_bind_to_ipv4`.
    ClientBindToIpv4,
    /// The key `client_bind_to_ipv6`.
    ClientBindToIpv6,
}

/// A key, by what its value is.
#[derive(Clone, Copy)]
pub enum Field {
    /// A number.
    Number(NumberKey),
    /// A flag.
    Flag(FlagKey),
    /// A text.
    Text(TextKey),
    /// A text, or unset.
    OptionalText(OptionalTextKey),
    /// A number, or unset.
    OptionalNumber(OptionalNumberKey),
    /// How the histogram's buckets grow, or unset.
    Scale,
    /// A list of texts.
    List(ListKey),
}

/// All keys, in the order in which they are printed.
pub const KEYS: [Key; 35] = [
    Key::Version,
    Key::Daemon,
    Key::ErrorLog,
    Key::PidFile,
    Key::UpgradeSock,
    Key::User,
    Key::Group,
    Key::WorkingDirectory,
    Key::Threads,
    Key::ListenerTasksPerFd,
    Key::WorkStealing,
    Key::RuntimeEnableAltTimer,
    Key::CaFile,
    Key::GracePeriodSeconds,
    Key::GracefulShutdownTimeoutSeconds,
    Key::ClientBindToIpv4,
    Key::ClientBindToIpv6,
    Key::UpstreamKeepalivePoolSize,
    Key::UpstreamConnectOffloadThreadpools,
    Key::UpstreamConnectOffloadThreadPerPool,
    Key::DownstreamTlsOffloadThreadpools,
    Key::DownstreamTlsOffloadThreadPerPool,
    Key::UpstreamDebugSslKeylog,
    Key::MaxRetries,
    Key::UpgradeSockConnectAcceptMaxRetries,
    Key::MaxBlockingThreads,
    Key::BlockingThreadsTtlSeconds,
    Key::FastTimeoutToTokioThresholdSeconds,
    Key::RuntimeMetricsPollTimeHistogram,
    Key::RuntimeMetricsPollTimeHistogramScale,
    Key::RuntimeMetricsPollTimeHistogramResolutionMicros,
    Key::RuntimeMetricsPollTimeHistogramBuckets,
    Key::DaemonWaitForReady,
    Key::DaemonReadyTimeoutSeconds,
    Key::DaemonNotifyTimeoutSeconds,
];

/// The key as one whose value is a number or unset, if it is one.
fn optional_number(key: Key) -> Option<OptionalNumberKey>
    ensures { MatchOption result (is_optional_number (field_of key) ≡ false) (λ number. field_of key ≡ OptionalNumber number) }
{
    let number = match key {
        Key::GracePeriodSeconds => OptionalNumberKey::GracePeriodSeconds,
        Key::GracefulShutdownTimeoutSeconds => OptionalNumberKey::GracefulShutdownTimeoutSeconds,
        Key::UpstreamConnectOffloadThreadpools =>
            OptionalNumberKey::UpstreamConnectOffloadThreadpools,
        Key::UpstreamConnectOffloadThreadPerPool =>
            OptionalNumberKey::UpstreamConnectOffloadThreadPerPool,
        Key::DownstreamTlsOffloadThreadpools => OptionalNumberKey::DownstreamTlsOffloadThreadpools,
        Key::DownstreamTlsOffloadThreadPerPool =>
            OptionalNumberKey::DownstreamTlsOffloadThreadPerPool,
        Key::UpgradeSockConnectAcceptMaxRetries =>
            OptionalNumberKey::UpgradeSockConnectAcceptMaxRetries,
        Key::MaxBlockingThreads => OptionalNumberKey::MaxBlockingThreads,
        Key::BlockingThreadsTtlSeconds => OptionalNumberKey::BlockingThreadsTtlSeconds,
        Key::FastTimeoutToTokioThresholdSeconds =>
            OptionalNumberKey::FastTimeoutToTokioThresholdSeconds,
        Key::RuntimeMetricsPollTimeHistogramResolutionMicros =>
            OptionalNumberKey::RuntimeMetricsPollTimeHistogramResolutionMicros,
        Key::RuntimeMetricsPollTimeHistogramBuckets =>
            OptionalNumberKey::RuntimeMetricsPollTimeHistogramBuckets,
        Key::DaemonReadyTimeoutSeconds => OptionalNumberKey::DaemonReadyTimeoutSeconds,
        Key::DaemonNotifyTimeoutSeconds => OptionalNumberKey::DaemonNotifyTimeoutSeconds,
        _ => return None,
    };
    Some(number)
}

/// What the value of a key is that isn't a number or unset.
fn other_field(key: Key) -> Field
    requires { is_optional_number (field_of key) ≡ false }
    ensures { result ≡ field_of key }
{
    match key {
        Key::Version => Field::Number(NumberKey::Version),
        Key::Threads => Field::Number(NumberKey::Threads),
        Key::ListenerTasksPerFd => Field::Number(NumberKey::ListenerTasksPerFd),
        Key::UpstreamKeepalivePoolSize => Field::Number(NumberKey::UpstreamKeepalivePoolSize),
        Key::MaxRetries => Field::Number(NumberKey::MaxRetries),
        Key::Daemon => Field::Flag(FlagKey::Daemon),
        Key::WorkStealing => Field::Flag(FlagKey::WorkStealing),
        Key::RuntimeEnableAltTimer => Field::Flag(FlagKey::RuntimeEnableAltTimer),
        Key::UpstreamDebugSslKeylog => Field::Flag(FlagKey::UpstreamDebugSslKeylog),
        Key::RuntimeMetricsPollTimeHistogram => Field::Flag(
            FlagKey::RuntimeMetricsPollTimeHistogram,
        ),
        Key::DaemonWaitForReady => Field::Flag(FlagKey::DaemonWaitForReady),
        Key::PidFile => Field::Text(TextKey::PidFile),
        Key::UpgradeSock => Field::Text(TextKey::UpgradeSock),
        Key::ErrorLog => Field::OptionalText(OptionalTextKey::ErrorLog),
        Key::User => Field::OptionalText(OptionalTextKey::User),
        Key::Group => Field::OptionalText(OptionalTextKey::Group),
        Key::WorkingDirectory => Field::OptionalText(OptionalTextKey::WorkingDirectory),
        Key::CaFile => Field::OptionalText(OptionalTextKey::CaFile),
        Key::ClientBindToIpv4 => Field::List(ListKey::ClientBindToIpv4),
        Key::ClientBindToIpv6 => Field::List(ListKey::ClientBindToIpv6),
        _ => Field::Scale,
    }
}

/// What the value of a key is.
pub fn field_of(key: Key) -> Field
    ensures { result ≡ field_of key }
{
    match optional_number(key) {
        Some(number) => Field::OptionalNumber(number),
        None => other_field(key),
    }
}

fn key_among(keys: &[Key], name: &[u8]) -> Option<Key>
    ensures { result ≡ find (λ key. bytes_eq (key_name key) name.now) keys.now }
{
    keys.iter()
        .copied()
        .find(|key| key.name().as_bytes() == name)
}

/// The key with this name.
#[tactic(auto, unfolding(crate::specs::Fields::key_of))]
pub fn key_of(name: &[u8]) -> Option<Key>
    ensures { result ≡ key_of name.now }
{
    key_among(&KEYS, name)
}
