//! Numbers of descriptors, several at once.

ghost use Rattle.std.specs.Prelude.{◌≡◌, ◌≤◌, ◌==◌, length, true};
ghost use Rattle.std.specs.List.{list_any};
ghost use Rattle.svc_base.specs.Items.{list_of, spare};
ghost use Rattle.svc_endpoints.specs.EndpointsState.{all_new};
ghost use Rattle.svc_endpoints.specs.Effects.{put_numbers};

use svc_base::NumberRanges;

/// The number stands in the list.
pub(crate) fn contains(list: &[u64], fd: u64) -> bool
    ensures { result ≡ list_any (λ n. n == fd) list.now }
{
    list.iter().any(|n| *n == fd)
}

/// Takes new numbers.
pub(crate) fn add_all(numbers: &mut NumberRanges, fds: &[u64])
    requires new { all_new (list_of numbers.old) fds.now ≡ true }
    requires room { length fds.now ≤ spare numbers.old }
    ensures { list_of numbers.new ≡ put_numbers fds.now (list_of numbers.old) }
{
    for fd in fds {
        numbers.add(*fd);
    }
}
