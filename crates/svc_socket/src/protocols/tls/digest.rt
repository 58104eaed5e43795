//! What is kept of a TLS session.

ghost use Rattle.std.specs.Prelude.{◌≡◌, Option, Some, None, IfOk};
ghost use Rattle.std.specs.Option.{option_map};

use std::alloc::Global;
use std::marker::Model;
use svc_base::{Bytes, NoMemory, Text};

/// What a user keeps beside a TLS session. Contracts see it as an option.
#[derive(Debug, Drop)]
pub struct SslDigestExtension<X> {
    value: Option<X>,
}

impl<X> Model for SslDigestExtension<X> {
    ghost use Rattle.std.specs.Prelude.{Option};

    ghost Value = { Option X };

    ghost view = { λ extension. extension.value };
}

impl<X> Default for SslDigestExtension<X> {
    ghost is_default = { λ extension. extension ≡ None };

    fn default() -> Self {
        SslDigestExtension { value: None }
    }
}

impl<X> SslDigestExtension<X> {
    /// The value, if there is one.
    pub fn get(&self) -> Option<&X>
        ensures { option_map (λ value. value.now) result ≡ self.now }
    {
        self.value.as_ref()
    }
}

impl<X: Drop> SslDigestExtension<X> {
    /// Keeps a value in place of an earlier one.
    pub fn set(&mut self, value: X)
        ensures { self.new ≡ Some value }
    {
        self.value = Some(value);
    }
}

/// What is kept of a TLS session.
#[derive(Debug, Drop)]
pub struct SslDigest<X> {
    pub cipher: Text,
    /// The version of TLS.
    pub version: Text,
    /// The organization of the peer's certificate.
    pub organization: Option<Text>,
    /// The serial number of the peer's certificate.
    pub serial_number: Option<Text>,
    /// The digest of the peer's certificate.
    pub cert_digest: Bytes,
    pub extension: SslDigestExtension<X>,
}

/// The bytes once more.
fn copy_bytes(alloc: Global, bytes: &[u8]) -> Result<Bytes, NoMemory>
    ensures { IfOk result (λ copied. copied ≡ bytes.now) }
{
    let mut copied = Bytes::new(alloc);
    for byte in bytes {
        if let Err(refused) = copied.push(alloc, *byte) {
            return Err(refused.reason);
        }
    }
    Ok(copied)
}

/// The text once more, if there is one.
fn copy_text(alloc: Global, text: &Option<Text>) -> Result<Option<Text>, NoMemory>
    ensures { IfOk result (λ copied. copied ≡ text.now) }
{
    match text {
        None => Ok(None),
        Some(text) => match text.copy(alloc) {
            Ok(text) => Ok(Some(text)),
            Err(error) => Err(error),
        },
    }
}

impl<X> SslDigest<X> {
    /// A digest without an extension.
    pub fn new(
        cipher: Text,
        version: Text,
        organization: Option<Text>,
        serial_number: Option<Text>,
        cert_digest: Bytes,
    ) -> Self
        ensures { result ≡ record {
          cipher = cipher;
          version = version;
          organization = organization;
          serial_number = serial_number;
          cert_digest = cert_digest;
          extension = None;
        } }
    {
        SslDigest {
            cipher,
            version,
            organization,
            serial_number,
            cert_digest,
            extension: SslDigestExtension::default(),
        }
    }
}

impl<X: Copy + Drop> SslDigest<X> {
    /// The same digest once more.
    pub fn copy(&self, alloc: Global) -> Result<SslDigest<X>, NoMemory>
        ensures { IfOk result (λ digest. digest ≡ self.now) }
    {
        Ok(SslDigest {
            cipher: self.cipher.copy(alloc)?,
            version: self.version.copy(alloc)?,
            organization: copy_text(alloc, &self.organization)?,
            serial_number: copy_text(alloc, &self.serial_number)?,
            cert_digest: copy_bytes(alloc, self.cert_digest.as_slice())?,
            extension: SslDigestExtension {
                value: self.extension.value,
            },
        })
    }
}
