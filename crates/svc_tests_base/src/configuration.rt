//! Configurations and the flags of a command.

use crate::checking::{holds, prints, same};
use clap::error::ErrorKind;
use std::env::temp_dir;
use std::process::Abort;
use std::rc::RcStr;
use std::{fs, process};
use svc_base::{FileError, Files, MemoryFile, MemoryFiles, SteadyFiles, SystemFiles, Text};
use svc_conf::{Key, Opt, OptError, ReadError, RuntimeOpts, ServerConf};

/// A usual file: each sort of a value, in its forms.
const USUAL: &str =
    "---\n# a server\nversion: 1\nthreads: 4\r\npid_file: /run/a.pid # here\nupgrade_sock: '/run/it''s'\nuser: nobody\ngroup: \"a # \\\"b\\\"\"\nextra: {\n  - a\n-b: c\n\n  d\nclient_bind_to_ipv4:\n  - 1.2.3.4\n# more\n- 5.6.7.8\nclient_bind_to_ipv6: []\nfast_timeout_to_tokio_threshold_seconds:\nmax_blocking_threads: ~\nruntime_metrics_poll_time_histogram_buckets: 1024\nruntime_metrics_poll_time_histogram_scale: log\ndaemon: True\n";

/// What a new configuration prints: each key with its default, and the version.
const NEW: &str =
    "version: 1\ndaemon: false\nerror_log: null\npid_file: /tmp/pingora.pid\nupgrade_sock: /tmp/pingora_upgrade.sock\nuser: null\ngroup: null\nworking_directory: null\nthreads: 1\nlistener_tasks_per_fd: 1\nwork_stealing: true\nruntime_enable_alt_timer: false\nca_file: null\ngrace_period_seconds: null\ngraceful_shutdown_timeout_seconds: null\nclient_bind_to_ipv4: []\nclient_bind_to_ipv6: []\nupstream_keepalive_pool_size: 128\nupstream_connect_offload_threadpools: null\nupstream_connect_offload_thread_per_pool: null\ndownstream_tls_offload_threadpools: null\ndownstream_tls_offload_thread_per_pool: null\nupstream_debug_ssl_keylog: false\nmax_retries: 16\nupgrade_sock_connect_accept_max_retries: null\nmax_blocking_threads: null\nblocking_threads_ttl_seconds: null\nfast_timeout_to_tokio_threshold_seconds: 900\nruntime_metrics_poll_time_histogram: false\nruntime_metrics_poll_time_histogram_scale: null\nruntime_metrics_poll_time_histogram_resolution_micros: null\nruntime_metrics_poll_time_histogram_buckets: null\ndaemon_wait_for_ready: false\ndaemon_ready_timeout_seconds: null\ndaemon_notify_timeout_seconds: null\n";

fn printed<R: Abort + AllocGlobal>(rt: &R, conf: &ServerConf) -> Text {
    conf.to_yaml(rt.alloc()).expect(rt, "a text")
}

fn read<R: Abort + AllocGlobal>(rt: &R, text: &str) -> ServerConf {
    ServerConf::from_yaml(rt.alloc(), text).expect(rt, "a configuration")
}

#[test]
fn a_new_configuration_has_the_defaults(rt: HostRuntime) {
    let rt = &rt;
    let conf = ServerConf::new(rt.alloc()).expect(rt, "a configuration");
    same(rt, printed(rt, &conf).as_str(), NEW);
    same(rt, conf.validate(), Ok(()));
    let mut default = ServerConf::default(rt.alloc()).expect(rt, "a configuration");
    same(rt, default.version, 0);
    holds(rt, conf != default);
    default.version = 1;
    holds(rt, conf == default);
}

#[test]
fn a_usual_file_is_read_whole(rt: HostRuntime) {
    let rt = &rt;
    let conf = read(rt, USUAL);
    let text = printed(rt, &conf);
    for lines in [
        "version: 1\ndaemon: true\n",
        "pid_file: /run/a.pid\nupgrade_sock: \"/run/it's\"\nuser: nobody\ngroup: \"a # \\\"b\\\"\"\n",
        "threads: 4\n",
        "client_bind_to_ipv4:\n- 1.2.3.4\n- 5.6.7.8\nclient_bind_to_ipv6: []\n",
        "max_blocking_threads: null\n",
        "fast_timeout_to_tokio_threshold_seconds: null\n",
        "scale: log\n",
        "buckets: 1024\n",
    ] {
        holds(rt, text.as_str().contains(lines));
    }
    holds(rt, read(rt, text.as_str()) == conf);
}

#[test]
fn refused_texts_name_their_line(rt: HostRuntime) {
    let rt = &rt;
    for (text, refused) in [
        (
            "version: 1\nversion: 1",
            "line 2 of the configuration is refused",
        ),
        ("threads 1", "line 1 of the configuration is refused"),
        (
            "threads: 1\n daemon: true",
            "line 2 of the configuration is refused",
        ),
        (
            "# a\n\npid_file: null",
            "line 3 of the configuration has no value for pid_file",
        ),
        (
            "threads: 03",
            "line 1 of the configuration has no value for threads",
        ),
        (
            "daemon: yes",
            "line 1 of the configuration has no value for daemon",
        ),
        (
            "client_bind_to_ipv4:\n# b\nthreads: 1",
            "line 1 of the configuration has no value for client_bind_to_ipv4",
        ),
        (
            "max_blocking_threads: 0",
            "the configuration is refused for max_blocking_threads",
        ),
    ] {
        let refusal = ServerConf::from_yaml(rt.alloc(), text).err();
        prints(rt, refusal.expect(rt, "a refusal"), refused);
    }
}

#[test]
fn a_configuration_tells_its_runtimes(rt: HostRuntime) {
    let rt = &rt;
    let mut conf = read(
        rt,
        "upstream_connect_offload_threadpools: 2\nupstream_connect_offload_thread_per_pool: 3\ndownstream_tls_offload_threadpools: 4\ndownstream_tls_offload_thread_per_pool: 5",
    );
    same(rt, conf.upstream_connect_offload_threadpool(), Some((2, 3)));
    same(rt, conf.downstream_tls_offload_threadpool(), Some((4, 5)));
    conf.upstream_connect_offload_threadpools = Some(0);
    same(rt, conf.upstream_connect_offload_threadpool(), None);
    same(rt, conf.runtime_opts(), RuntimeOpts::default());
    conf.runtime_metrics_poll_time_histogram_buckets = Some(1025);
    let refused = Err(Key::RuntimeMetricsPollTimeHistogramBuckets);
    same(rt, conf.validate(), refused);
}

#[test]
fn configurations_are_loaded(rt: HostRuntime) {
    let rt = &rt;
    let alloc = rt.alloc();
    let mut opt = Opt::default();
    opt.daemon = true;
    let conf = ServerConf::new_with_opt_override(alloc, &opt).expect(rt, "a configuration");
    holds(rt, conf.daemon);
    let mut files = SteadyFiles {
        text: Text::new(alloc, "threads: 3").expect(rt, "a text"),
    };
    let refused = ServerConf::load_yaml_with_opt_override(alloc, &mut files, &opt).err();
    same(rt, refused, Some(ReadError::NoPath));
    opt.conf = Some(Text::new(alloc, "a.yaml").expect(rt, "a path"));
    let conf = ServerConf::load_yaml_with_opt_override(alloc, &mut files, &opt);
    let conf = conf.expect(rt, "a configuration");
    holds(rt, conf.threads == 3 && conf.daemon);
    same(rt, files.faults(), 0);
}

#[test]
fn files_are_found_by_their_path(rt: HostRuntime) {
    let rt = &rt;
    let alloc = rt.alloc();
    let path = Text::new(alloc, "a.yaml").expect(rt, "a path");
    let text = Text::new(alloc, "threads: 3").expect(rt, "a text");
    let mut list = Vec::new(alloc);
    holds(rt, list.push(MemoryFile { path, text }).is_ok());
    let failing = [1u64].to_vec(alloc).expect(rt, "numbers");
    let mut files = MemoryFiles::new(alloc, list, failing);
    for (path, threads) in [("a.yaml", Some(3)), ("a.yaml", None), ("b.yaml", None)] {
        let conf = ServerConf::load_from_yaml(alloc, &mut files, path);
        let found = match conf {
            Ok(conf) => Some(conf.threads),
            Err(_) => None,
        };
        same(rt, found, threads);
    }
    same(rt, files.faults(), 2);
    same(rt, files.calls.len(), 3);
}

/// What the system reads of a file with these bytes at this path: its length, or why there is no text.
fn length<R: Abort + fs::Files + AllocGlobal>(
    rt: &R,
    path: &str,
    bytes: &[u8],
) -> Result<usize, FileError> {
    assert!(rt; fs::write(rt, path, bytes).is_ok());
    let mut system = SystemFiles::new(rt);
    let answer = system.read(rt.alloc(), path);
    assert!(rt; fs::remove_file(rt, path).is_ok());
    assert_eq!(rt; system.faults(), u64::from(answer.is_err()));
    match answer {
        Ok(text) => Ok(text.as_str().len()),
        Err(error) => Err(error),
    }
}

#[test]
fn files_of_the_system_are_read_whole_or_not_at_all(rt: HostRuntime) {
    let rt = &rt;
    let mut system = SystemFiles::new(rt);
    let refused = system.read(rt.alloc(), "no/such/file").err();
    same(rt, refused, Some(FileError::Failed));
    same(rt, system.faults(), 1);
    let folder = temp_dir(rt).ok().expect(rt, "a folder");
    let id = process::id(rt.process());
    let path = format!(in rt.alloc(); "{}/svc_tests_base.{id}", folder.as_str());
    let path = path.expect(rt, "a path");
    let most = vec![in rt.alloc(); b'#'; 16_777_216].expect(rt, "bytes");
    let more = vec![in rt.alloc(); b'#'; 16_777_217].expect(rt, "bytes");
    for (bytes, read) in [
        (b"threads: 3\n".as_slice(), Ok(11)),
        (b"user: caf\xe9\n", Err(FileError::Failed)),
        (most.as_slice(), Ok(16_777_216)),
        (more.as_slice(), Err(FileError::Failed)),
    ] {
        same(rt, length(rt, path.as_str(), bytes), read);
    }
}

fn words<R: Abort + AllocGlobal>(rt: &R, all: &[&str]) -> Vec<RcStr> {
    let mut words = Vec::new(rt.alloc());
    for word in all {
        let word = RcStr::from_str(rt.alloc(), word).expect(rt, "a word");
        assert!(rt; words.push(word).is_ok());
    }
    words
}

#[test]
fn words_give_flags(rt: HostRuntime) {
    let rt = &rt;
    let given = words(rt, &["svc", "-u", "-c", "a.yaml"]);
    let opt = Opt::parse_args(rt.alloc(), &given).expect(rt, "flags");
    holds(
        rt,
        opt.upgrade && !opt.daemon && !opt.test && !opt.nocapture,
    );
    let path = opt.conf.expect(rt, "a path");
    same(rt, path.as_str(), "a.yaml");
    for (word, kind) in [
        ("--help", ErrorKind::DisplayHelp),
        ("--other", ErrorKind::UnknownArgument),
    ] {
        let given = words(rt, &["svc", word]);
        let refused = Opt::parse_from_args(rt.alloc(), &given).err();
        same(rt, refused, Some(OptError::Words(kind)));
    }
}

#[test]
fn errors_have_texts(rt: HostRuntime) {
    let rt = &rt;
    prints(rt, ReadError::Fault, "the configuration file can't be read");
    prints(
        rt,
        ReadError::NoPath,
        "no path of a configuration file is given",
    );
    prints(rt, ReadError::NoMemory, "out of memory");
    let refused = OptError::Words(ErrorKind::DisplayHelp);
    prints(rt, refused, "the command words are refused");
    prints(rt, OptError::NoMemory, "out of memory");
    prints(rt, FileError::Failed, "the file can't be read");
    prints(rt, FileError::NoMemory, "out of memory");
}
