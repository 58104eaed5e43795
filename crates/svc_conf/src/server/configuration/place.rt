//! What matters of the lines before a line.

ghost use Rattle.std.specs.Prelude.{◌≡◌, ◌+◌, ◌++◌, ◌∷◌, ◌<◌, ◌^◌, [], true, None, OnOk};
ghost use Rattle.std.specs.Str.Lines.{lines};
ghost use Rattle.svc_conf.specs.Fields.{list_key};
ghost use Rattle.svc_conf.specs.ConfigurationText.{has_key, said_by, known_says, opening_says, value_item};

use super::field::{ListKey, field_of};
use super::kind::{Kind, item_follows};
use super::read_error::ReadError;
use super::said::Said;
use super::values::{Value, said_of, text_value, value_of};
use crate::server::configuration::Key;
use std::alloc::Global;
use svc_base::{Items, NoMemory};

/// What matters of the lines before a line.
#[derive(Drop)]
pub struct Place {
    /// How many lines stood before.
    pub passed: u64,
    /// `---` or a key stood before.
    pub begun: bool,
    /// It is behind an unknown key.
    pub skips: bool,
    /// The list whose items may stand here.
    pub list: Option<ListKey>,
    /// The known keys that stood before.
    pub keys: Items<Key>,
}

fn list_key(list: ListKey) -> Key
    ensures { result ≡ list_key list }
{
    match list {
        ListKey::ClientBindToIpv4 => Key::ClientBindToIpv4,
        ListKey::ClientBindToIpv6 => Key::ClientBindToIpv6,
    }
}

fn has_key(key: Key, keys: &[Key]) -> bool
    ensures { result ≡ has_key key keys.now }
{
    keys.iter()
        .any(|other| other.name().as_bytes() == key.name().as_bytes())
}

/// What is said, or the refusal of a value that isn't of its key's sort.
fn said_by(number: u64, key: Key, said: Option<Said>) -> Result<Option<Said>, ReadError>
    ensures { result ≡ said_by number key said }
{
    match said {
        Some(said) => Ok(Some(said)),
        None => Err(ReadError::Value { key, line: number }),
    }
}

fn known_says(number: u64, key: Key, value: Option<Value>) -> Result<Option<Said>, ReadError>
    ensures { result ≡ known_says number key value }
{
    match value {
        Some(value) => said_by(number, key, said_of(field_of(key), value)),
        None => Err(ReadError::Line(number)),
    }
}

fn opening_says(number: u64, list: ListKey, followed: bool) -> Result<Option<Said>, ReadError>
    ensures { result ≡ opening_says number list followed }
{
    if followed {
        Ok(Some(Said::Empty(list)))
    } else {
        Err(ReadError::Value {
            key: list_key(list),
            line: number,
        })
    }
}

fn value_item(number: u64, list: ListKey, value: Option<Value>) -> Result<Option<Said>, ReadError>
    ensures { result ≡ value_item number list value }
{
    match value {
        Some(value) => {
            let said = text_value(value).map(|text| Said::Item(list, text));
            said_by(number, list_key(list), said)
        }
        None => Err(ReadError::Line(number)),
    }
}

impl Place {
    ghost use Rattle.svc_conf.specs.Kinds.{place_of, behind_line};
    ghost use Rattle.svc_conf.specs.ConfigurationText.{says, item_says, Answers};

    pub fn new(alloc: Global) -> Place
        ensures { result ≡ place_of [] }
    {
        Place {
            passed: 0,
            begun: false,
            skips: false,
            list: None,
            keys: Items::new(alloc),
        }
    }

    fn known(&self, alloc: Global, key: Key, rest: &[u8]) -> Result<Option<Said>, ReadError>
        requires { self.now.passed + 1 < 2 ^ 64 }
        ensures { Answers result (says self.now (Kind.Known key) rest.now []) }
    {
        if has_key(key, self.keys.as_slice()) {
            return Err(ReadError::Line(self.passed + 1));
        }
        known_says(self.passed + 1, key, value_of(alloc, rest)?)
    }

    fn opens(&self, list: ListKey, after: &[u8]) -> Result<Option<Said>, ReadError>
        requires { self.now.passed + 1 < 2 ^ 64 }
        ensures { result ≡ says self.now (Kind.Opens list) [] (lines after.now) }
    {
        if has_key(list_key(list), self.keys.as_slice()) {
            return Err(ReadError::Line(self.passed + 1));
        }
        opening_says(self.passed + 1, list, item_follows(after))
    }

    fn item(&self, alloc: Global, rest: &[u8]) -> Result<Option<Said>, ReadError>
        requires { self.now.passed + 1 < 2 ^ 64 }
        ensures { Answers result (item_says (self.now.passed + 1) self.now.list rest.now) }
    {
        match self.list {
            Some(list) => value_item(self.passed + 1, list, value_of(alloc, rest)?),
            None => Err(ReadError::Line(self.passed + 1)),
        }
    }

    /// What a line of this kind says here, before this text, or how it is refused.
    pub fn says(
        &self,
        alloc: Global,
        kind: Kind,
        rest: &[u8],
        after: &[u8],
    ) -> Result<Option<Said>, ReadError>
        requires { self.now.passed + 1 < 2 ^ 64 }
        ensures { Answers result (says self.now kind rest.now (lines after.now)) }
    {
        match kind {
            Kind::Skipped | Kind::Unknown => Ok(None),
            Kind::Start if self.begun => Err(ReadError::Line(self.passed + 1)),
            Kind::Start => Ok(None),
            Kind::Known(key) => self.known(alloc, key, rest),
            Kind::Opens(list) => self.opens(list, after),
            Kind::Item => self.item(alloc, rest),
            Kind::Other => Err(ReadError::Line(self.passed + 1)),
        }
    }

    fn note_key(&mut self, alloc: Global, key: Key) -> Result<(), NoMemory>
        ensures { OnOk result (self.new ≡ record self.old { keys = self.old.keys ++ key ∷ [] }) }
    {
        match self.keys.push(alloc, key) {
            Ok(()) => Ok(()),
            Err(refused) => Err(refused.reason),
        }
    }

    /// Goes behind one more line.
    pub fn pass(&mut self, alloc: Global, kind: Kind) -> Result<(), NoMemory>
        requires { self.old.passed + 1 < 2 ^ 64 }
        ensures { OnOk result (self.new ≡ behind_line self.old kind) }
    {
        match kind {
            Kind::Skipped => {}
            Kind::Start => self.close(false),
            Kind::Known(key) => {
                self.note_key(alloc, key)?;
                self.close(false);
            }
            Kind::Opens(list) => {
                self.note_key(alloc, list_key(list))?;
                self.close(false);
                self.list = Some(list);
            }
            Kind::Unknown => self.close(true),
            Kind::Item => self.skips = false,
            Kind::Other => {
                self.skips = false;
                self.list = None;
            }
        }
        self.passed += 1;
        Ok(())
    }

    /// A key, or `---`, ends a list, and it begins what is skipped or ends it.
    fn close(&mut self, skips: bool)
        ensures { self.new ≡ record self.old { begun = true; skips = skips; list = None } }
    {
        self.begun = true;
        self.skips = skips;
        self.list = None;
    }
}
