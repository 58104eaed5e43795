//! The text of a configuration.

ghost use Rattle.std.specs.Prelude.{◌≡◌, ◌++◌, ◌∷◌, [], All, flat_map, Ok, OnOk, IfOk};
ghost use Rattle.std.specs.Fmt.{decimal};
ghost use Rattle.std.specs.List.{list_all};
ghost use Rattle.svc_conf.specs.TextLines.{first_is};
ghost use Rattle.svc_conf.specs.Printing.{is_plain_byte, is_plain_front, needs_no_quotes, escape, text_shown, flag_shown, scale_shown, or_null, item_line, IsText, IsNumber, IsOptional};

use super::field::{
    Field, FlagKey, KEYS, ListKey, NumberKey, OptionalNumberKey, OptionalTextKey, TextKey, field_of,
};
use super::values::{ends_in_colon, is_null_word};
use crate::server::configuration::{Key, ServerConf};
use std::alloc::Global;
use std::str;
use svc_base::{NoMemory, RuntimeMetricsPollTimeHistogramScale, Text, Texts};

fn put(out: &mut Vec<u8>, bytes: &[u8]) -> Result<(), NoMemory>
    ensures { OnOk result (out.new.items ≡ out.old.items ++ bytes.now) }
{
    out.extend_from_slice(bytes)?;
    Ok(())
}

/// The bytes as a text, which they are.
fn text_in(alloc: Global, bytes: &[u8]) -> Result<Text, NoMemory>
    requires { IsText bytes.now }
    ensures { IfOk result (λ text. text ≡ bytes.now) }
{
    match str::from_utf8(bytes) {
        Ok(text) => Text::new(alloc, text),
        Err(_) => unreachable!(),
    }
}

fn is_plain_byte(b: u8) -> bool
    ensures { result ≡ is_plain_byte b }
{
    b.is_ascii_alphanumeric() || b"_-./:,".as_slice().contains(&b)
}

fn begins_plain(text: &[u8]) -> bool
    ensures { result ≡ first_is is_plain_front text.now }
{
    match text {
        [] => false,
        [first, ..] => first.is_ascii_alphanumeric() || b"/._".as_slice().contains(first),
    }
}

fn all_plain(text: &[u8]) -> bool
    ensures { result ≡ list_all is_plain_byte text.now }
{
    text.iter().all(|b| is_plain_byte(*b))
}

fn needs_no_quotes(text: &[u8]) -> bool
    ensures { result ≡ needs_no_quotes text.now }
{
    begins_plain(text) && !is_null_word(text) && all_plain(text) && !ends_in_colon(text)
}

fn put_escaped(out: &mut Vec<u8>, b: u8) -> Result<(), NoMemory>
    ensures { OnOk result (out.new.items ≡ out.old.items ++ escape b) }
{
    match b {
        b'"' => put(out, b"\\\""),
        b'\\' => put(out, b"\\\\"),
        b'\n' => put(out, b"\\n"),
        b'\r' => put(out, b"\\r"),
        b'\t' => put(out, b"\\t"),
        _ => put(out, &[b]),
    }
}

fn put_quoted(out: &mut Vec<u8>, text: &[u8]) -> Result<(), NoMemory>
    ensures { OnOk result (out.new.items ≡ out.old.items ++ flat_map escape text.now) }
{
    for b in text {
        put_escaped(out, *b)?;
    }
    Ok(())
}

/// The bytes of a text, which are UTF-8.
fn text_of(text: &Text) -> &[u8]
    ensures same { result.now ≡ text.now }
    ensures fits { IsText text.now }
{
    text.as_str().as_bytes()
}

/// A text as it is, or between double quotes.
#[tactic(auto, unfolding(crate::specs::Printing::text_shown))]
fn put_text(out: &mut Vec<u8>, text: &Text) -> Result<(), NoMemory>
    ensures shown { OnOk result (out.new.items ≡ out.old.items ++ text_shown text.now) }
    ensures fits { IsText text.now }
{
    let bytes = text_of(text);
    if needs_no_quotes(bytes) {
        return put(out, bytes);
    }
    put(out, b"\"")?;
    put_quoted(out, bytes)?;
    put(out, b"\"")
}

fn put_number(alloc: Global, out: &mut Vec<u8>, number: u64) -> Result<(), NoMemory>
    ensures shown { OnOk result (out.new.items ≡ out.old.items ++ decimal number) }
    ensures fits { IsNumber number }
{
    let text = format!(in alloc; "{number}")?;
    put(out, text.as_bytes())
}

fn put_flag(out: &mut Vec<u8>, flag: bool) -> Result<(), NoMemory>
    ensures { OnOk result (out.new.items ≡ out.old.items ++ flag_shown flag) }
{
    put(
        out,
        if flag {
            b"true".as_slice()
        } else {
            b"false".as_slice()
        },
    )
}

fn put_optional_text(out: &mut Vec<u8>, text: &Option<Text>) -> Result<(), NoMemory>
    ensures shown { OnOk result (out.new.items ≡ out.old.items ++ or_null text_shown text.now) }
    ensures fits { IsOptional IsText text.now }
{
    match text {
        Some(text) => put_text(out, text),
        None => put(out, b"null"),
    }
}

fn put_optional_number(
    alloc: Global,
    out: &mut Vec<u8>,
    number: Option<u64>,
) -> Result<(), NoMemory>
    ensures shown { OnOk result (out.new.items ≡ out.old.items ++ or_null decimal number) }
    ensures fits { IsOptional IsNumber number }
{
    match number {
        Some(number) => put_number(alloc, out, number),
        None => put(out, b"null"),
    }
}

fn put_scale(
    out: &mut Vec<u8>,
    scale: Option<RuntimeMetricsPollTimeHistogramScale>,
) -> Result<(), NoMemory>
    ensures { OnOk result (out.new.items ≡ out.old.items ++ or_null scale_shown scale) }
{
    match scale {
        Some(RuntimeMetricsPollTimeHistogramScale::Linear) => put(out, b"linear"),
        Some(RuntimeMetricsPollTimeHistogramScale::Log) => put(out, b"log"),
        None => put(out, b"null"),
    }
}

fn put_item(out: &mut Vec<u8>, item: &Text) -> Result<(), NoMemory>
    ensures shown { OnOk result (out.new.items ≡ out.old.items ++ item_line item.now) }
    ensures fits { OnOk result (IsText item.now) }
{
    put(out, b"- ")?;
    put_text(out, item)?;
    put(out, b"\n")
}

fn put_items(out: &mut Vec<u8>, items: &[Text]) -> Result<(), NoMemory>
    ensures shown { OnOk result (out.new.items ≡ out.old.items ++ flat_map item_line items.now) }
    ensures fits { OnOk result (All IsText items.now) }
{
    for item in items {
        put_item(out, item)?;
    }
    Ok(())
}

impl ServerConf {
    ghost use Rattle.svc_conf.specs.Fields.{all_keys, held_number, held_flag, held_text, held_optional_text, held_optional_number, held_list};
    ghost use Rattle.svc_conf.specs.Printing.{key_lines, yaml, value_shown, ValueFits, KeyFits, HasNoZero};
    ghost use Rattle.svc_conf.specs.ConfigurationText.{configuration};

    fn held_number(&self, key: NumberKey) -> u64
        ensures { result ≡ held_number key self.now }
    {
        match key {
            NumberKey::Version => self.version,
            NumberKey::Threads => self.threads,
            NumberKey::ListenerTasksPerFd => self.listener_tasks_per_fd,
            NumberKey::UpstreamKeepalivePoolSize => self.upstream_keepalive_pool_size,
            NumberKey::MaxRetries => self.max_retries,
        }
    }

    fn held_flag(&self, key: FlagKey) -> bool
        ensures { result ≡ held_flag key self.now }
    {
        match key {
            FlagKey::Daemon => self.daemon,
            FlagKey::WorkStealing => self.work_stealing,
            FlagKey::RuntimeEnableAltTimer => self.runtime_enable_alt_timer,
            FlagKey::UpstreamDebugSslKeylog => self.upstream_debug_ssl_keylog,
            FlagKey::RuntimeMetricsPollTimeHistogram => self.runtime_metrics_poll_time_histogram,
            FlagKey::DaemonWaitForReady => self.daemon_wait_for_ready,
        }
    }

    fn held_text(&self, key: TextKey) -> &Text
        ensures { result.now ≡ held_text key self.now }
    {
        match key {
            TextKey::PidFile => &self.pid_file,
            TextKey::UpgradeSock => &self.upgrade_sock,
        }
    }

    fn held_optional_text(&self, key: OptionalTextKey) -> &Option<Text>
        ensures { result.now ≡ held_optional_text key self.now }
    {
        match key {
            OptionalTextKey::ErrorLog => &self.error_log,
            OptionalTextKey::User => &self.user,
            OptionalTextKey::Group => &self.group,
            OptionalTextKey::WorkingDirectory => &self.working_directory,
            OptionalTextKey::CaFile => &self.ca_file,
        }
    }

    fn held_optional_number(&self, key: OptionalNumberKey) -> Option<u64>
        ensures { result ≡ held_optional_number key self.now }
    {
        match key {
            OptionalNumberKey::GracePeriodSeconds => self.grace_period_seconds,
            OptionalNumberKey::GracefulShutdownTimeoutSeconds =>
                self.graceful_shutdown_timeout_seconds,
            OptionalNumberKey::UpstreamConnectOffloadThreadpools =>
                self.upstream_connect_offload_threadpools,
            OptionalNumberKey::UpstreamConnectOffloadThreadPerPool =>
                self.upstream_connect_offload_thread_per_pool,
            OptionalNumberKey::DownstreamTlsOffloadThreadpools =>
                self.downstream_tls_offload_threadpools,
            OptionalNumberKey::DownstreamTlsOffloadThreadPerPool =>
                self.downstream_tls_offload_thread_per_pool,
            OptionalNumberKey::UpgradeSockConnectAcceptMaxRetries =>
                self.upgrade_sock_connect_accept_max_retries,
            OptionalNumberKey::MaxBlockingThreads => self.max_blocking_threads,
            OptionalNumberKey::BlockingThreadsTtlSeconds => self.blocking_threads_ttl_seconds,
            OptionalNumberKey::FastTimeoutToTokioThresholdSeconds =>
                self.fast_timeout_to_tokio_threshold_seconds,
            OptionalNumberKey::RuntimeMetricsPollTimeHistogramResolutionMicros =>
                self.runtime_metrics_poll_time_histogram_resolution_micros,
            OptionalNumberKey::RuntimeMetricsPollTimeHistogramBuckets =>
                self.runtime_metrics_poll_time_histogram_buckets,
            OptionalNumberKey::DaemonReadyTimeoutSeconds => self.daemon_ready_timeout_seconds,
            OptionalNumberKey::DaemonNotifyTimeoutSeconds => self.daemon_notify_timeout_seconds,
        }
    }

    fn held_list(&self, key: ListKey) -> &Texts
        ensures { result.now ≡ held_list key self.now }
    {
        match key {
            ListKey::ClientBindToIpv4 => &self.client_bind_to_ipv4,
            ListKey::ClientBindToIpv6 => &self.client_bind_to_ipv6,
        }
    }

    /// The value of a key that is no list.
    fn put_value(&self, alloc: Global, out: &mut Vec<u8>, field: Field) -> Result<(), NoMemory>
        ensures shown { OnOk result (out.new.items ≡ out.old.items ++ value_shown field self.now) }
        ensures fits { OnOk result (ValueFits field self.now) }
    {
        match field {
            Field::Number(key) => put_number(alloc, out, self.held_number(key)),
            Field::Flag(key) => put_flag(out, self.held_flag(key)),
            Field::Text(key) => put_text(out, self.held_text(key)),
            Field::OptionalText(key) => put_optional_text(out, self.held_optional_text(key)),
            Field::OptionalNumber(key) => {
                put_optional_number(alloc, out, self.held_optional_number(key))
            }
            Field::Scale => put_scale(out, self.runtime_metrics_poll_time_histogram_scale),
            Field::List(_) => put(out, b"[]"),
        }
    }

    /// The lines of a key.
    #[tactic(auto, unfolding(crate::specs::Printing::key_lines))]
    fn put_key(&self, alloc: Global, out: &mut Vec<u8>, key: Key) -> Result<(), NoMemory>
        ensures shown { OnOk result (out.new.items ≡ out.old.items ++ key_lines self.now key) }
        ensures fits { OnOk result (KeyFits self.now key) }
    {
        let field = field_of(key);
        put(out, key.name().as_bytes())?;
        if let Field::List(list) = field {
            let items = self.held_list(list).as_slice();
            if !items.is_empty() {
                put(out, b":\n")?;
                return put_items(out, items);
            }
        }
        put(out, b": ")?;
        self.put_value(alloc, out, field)?;
        put(out, b"\n")
    }

    fn put_keys(&self, alloc: Global, out: &mut Vec<u8>, keys: &[Key]) -> Result<(), NoMemory>
        ensures shown { OnOk result (out.new.items ≡ out.old.items ++ flat_map (key_lines self.now) keys.now) }
        ensures fits { OnOk result (All (KeyFits self.now) keys.now) }
    {
        for key in keys {
            self.put_key(alloc, out, *key)?;
        }
        Ok(())
    }

    #[tactic(auto, unfolding(crate::specs::Printing::yaml))]
    fn yaml_bytes(&self, alloc: Global) -> Result<Vec<u8>, NoMemory>
        ensures shown { IfOk result (λ bytes. bytes.items ≡ yaml self.now) }
        ensures fits { OnOk result (All (KeyFits self.now) all_keys) }
    {
        let mut out = Vec::new(alloc);
        self.put_keys(alloc, &mut out, &KEYS)?;
        Ok(out)
    }

    /// The text of these settings: a line for each key, in the order of the fields, and one for each
    /// item of a list. `parse` gives them back where neither of the daemon's timeouts is 0.
    pub fn to_yaml(&self, alloc: Global) -> Result<Text, NoMemory>
        ensures text { IfOk result (λ text. text ≡ yaml self.now) }
        ensures back { IfOk result (λ text. HasNoZero self.now → configuration text ≡ Ok self.now) }
    {
        let bytes = self.yaml_bytes(alloc)?;
        let text = text_in(alloc, &bytes)?;
        Ok(text)
    }
}
