//! What is read in certificates.

ghost use Rattle.std.specs.Prelude.{◌≡◌, None};

use super::CertWrapper;
use std::fmt;
use svc_base::Text;

/// A certificate and its key. It prints nothing.
#[derive(Clone, Copy, PartialEq, Eq, Hash, Drop)]
pub struct CertKey;

impl fmt::Display for CertKey {
    ghost use Rattle.std.specs.Prelude.{Some, []};

    ghost output = { λ _. Some [] };

    fn fmt<W: fmt::Write>(&self, _f: &mut fmt::Formatter<W>) -> fmt::Result {
        Ok(())
    }
}

/// The unit of the organization that a certificate names: none.
pub fn get_organization_unit(_cert: &CertWrapper) -> Option<Text>
    ensures { result ≡ None }
{
    None
}
