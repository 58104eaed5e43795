//! A server is made of its flags and the file that they name.

ghost use Rattle.std.specs.Prelude.{◌≡◌, IfOk, MatchOption};
ghost use Rattle.std.specs.Option.{option_map};
ghost use Rattle.std.specs.Result.{IsErrOf};
ghost use Rattle.svc_conf.specs.ConfigurationText.{loaded, Answers};
ghost use Rattle.svc_base.specs.FileCalls.{IsRead};
ghost use Rattle.svc_base.specs.Streams.{Rose};
ghost use Rattle.svc_server.specs.Making.{conf_path, fresh};

use crate::server::Server;
use std::alloc::Global;
use svc_base::Files;
use svc_conf::{Opt, ReadError, ServerConf};
use svc_graph::services::ServiceWithDependents;
use svc_streams::ConnectionFilter;

/// The path of the file that the flags name.
fn conf_path(opt: &Option<Opt>) -> Option<&str>
    ensures { option_map (λ path. path.now) result ≡ conf_path opt.now }
{
    match opt {
        Some(opt) => match &opt.conf {
            Some(path) => Some(path.as_str()),
            None => None,
        },
        None => None,
    }
}

/// The configuration of the file that the flags name, or else a new one.
fn configured<F: Files>(
    alloc: Global,
    opt: &Option<Opt>,
    files: &mut F,
) -> Result<ServerConf, ReadError>
    ensures fault { IsErrOf result ReadError.Fault
        → Rose (F.seen files.old).faults (F.seen files.new).faults }
    ensures read { MatchOption (conf_path opt.now)
        ((files.new ≡ files.old) × Answers result (Ok fresh))
        (λ path. (answer : _)
        × IsRead (F.seen files.old) (F.seen files.new) path answer
        × Answers result (loaded answer)) }
{
    match conf_path(opt) {
        Some(path) => ServerConf::load_from_yaml(alloc, files, path),
        None => match ServerConf::new(alloc) {
            Ok(conf) => Ok(conf),
            Err(_) => Err(ReadError::NoMemory),
        },
    }
}

impl<B: ServiceWithDependents, F: ConnectionFilter> Server<B, F> {
    ghost use Rattle.std.specs.Prelude.{◌≡◌, false, [], length, IfOk};
    ghost use Rattle.svc_server.specs.Making.{Configures};
    ghost use Rattle.svc_server.specs.Servers.{answers_of, IsSound};

    /// A server without services and filters, configured by the file that the flags name, or by a new configuration
    /// where they name none; the flags are merged into it. `Fault` where the file isn't read, `Line`,
    /// `Value` and `Invalid` where what it says is refused.
    pub fn new<R: Files>(
        alloc: Global,
        opt: Option<Opt>,
        files: &mut R,
    ) -> Result<Server<B, F>, ReadError>
        ensures fault { IsErrOf result ReadError.Fault
            → Rose (R.seen files.old).faults (R.seen files.new).faults }
        ensures configuration { MatchOption (conf_path opt)
            ((files.new ≡ files.old) × Configures opt (Ok fresh) result)
            (λ path. (answer : _)
            × IsRead (R.seen files.old) (R.seen files.new) path answer
            × Configures opt (loaded answer) result) }
        ensures options { IfOk result (λ server. server.options ≡ opt) }
        ensures nodes { IfOk result
            (λ server. server.dependencies ≡ record { names = []; depends = [] }) }
        ensures filters { IfOk result (λ server. server.filters ≡ []) }
        ensures services { IfOk result (λ server. server.services.items ≡ []) }
        ensures eager { IfOk result (λ server. server.eager ≡ false) }
        ensures sound { IfOk result (λ server. IsSound server.dependencies (length server.filters)
            (answers_of B.ServiceWithDependents server.services.items)) }
    {
        match configured(alloc, &opt, files) {
            Ok(conf) => Server::new_with_opt_and_conf(alloc, opt, conf),
            Err(error) => Err(error),
        }
    }
}
