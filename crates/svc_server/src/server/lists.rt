//! Lists of services.

ghost use Rattle.std.specs.Prelude.{◌≡◌, reverse, vec_len, vec_capacity};

/// Turns the order round.
pub(super) fn reversed<T>(items: &mut Vec<T>)
    ensures items { items.new.items ≡ reverse items.old.items }
    ensures len { vec_len items.new ≡ vec_len items.old }
    ensures capacity { vec_capacity items.new ≡ vec_capacity items.old }
{
    items.reverse();
}
