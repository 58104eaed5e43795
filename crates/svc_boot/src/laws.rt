//! Laws of bootstrapping, over the definitions alone.

ghost use Rattle.std.specs.Prelude.{◌≡◌, [], ℕ, List, Bool};
ghost use Rattle.svc_fds.specs.Tables.{Entry, put_all, kept, unclaimed};
ghost use Rattle.svc_boot.specs.BootData.{BootData};
ghost use Rattle.svc_boot.specs.BootEffects.{begun_from, told_from};

use svc_fds::laws;

/// A second bootstrapping changes nothing and tells nothing, whatever its flags and its moment.
pub fn second_bootstrapping()
    ensures unchanged { (test upgrade again takes : Bool) (d : BootData)
        → begun_from again takes (begun_from test upgrade d) ≡ begun_from test upgrade d }
    ensures untold { (test upgrade again notify takes : Bool) (d : BootData) (moment : ℕ)
        → told_from again notify takes (begun_from test upgrade d) moment ≡ [] }
{}

/// What came is pruned to the expected addresses and then put into an empty table, or all of it is
/// put there and the table is pruned then: the table that is left is the same, and so are the
/// descriptors that go out.
pub fn pruned_before_or_after()
    ensures left { (expected : List (List ℕ)) (came : List Entry)
        → kept expected (put_all came []) ≡ put_all (kept expected came) [] }
    ensures out { (expected : List (List ℕ)) (came : List Entry)
        → unclaimed expected (put_all came []) ≡ put_all (unclaimed expected came) [] }
{
    laws::pruned_before_or_after();
}
