//! The listening sockets of a server, by the numbers that its record knows them by.

ghost use Rattle.std.specs.Prelude.{◌≡◌, ◌+◌, ◌<◌, ◌≤◌, [], ◌∷◌, ◌++◌, is_some, IsTrue, OnOk};
ghost use Rattle.std.specs.Bool.{OnTrue, OnFalse};
ghost use Rattle.std.specs.Option.{option_copied};
ghost use Rattle.svc_sockets.specs.OpenSockets.{listener_of, number_behind, open_numbers, rows_without, without};

use std::alloc::Global;
use std::marker::Model;
use std::net::TcpListener;
use svc_base::NoMemory;

/// The first number: those of standard input, output and error are never given.
const FIRST: u64 = 3;

/// A listening socket with its number.
#[derive(Drop)]
struct Descriptor {
    number: u64,
    listener: TcpListener,
}

/// The open ones, and the number of the next one. A number is given once: the system gives its own
/// numbers again, and the record takes each once.
#[derive(Drop)]
pub struct Descriptors {
    rows: Vec<Descriptor>,
    next: u64,
}

impl Model for Descriptors {
    ghost use Rattle.std.specs.Prelude.{◌-◌, vec_len, vec_capacity};
    ghost use Rattle.svc_sockets.specs.OpenSockets.{OpenSockets};

    ghost Value = { OpenSockets };

    ghost view = { λ s. record { rows = s.rows.items; next = s.next; room = vec_capacity s.rows - vec_len s.rows } };
}

impl Descriptors {
    /// None is open, and the first number is 3.
    pub fn new(alloc: Global) -> Self
        ensures { result ≡ record { rows = []; next = 3; room = 0 } }
    {
        Descriptors {
            rows: Vec::new(alloc),
            next: FIRST,
        }
    }

    /// Makes room for so many more. `NoMemory` where there is none.
    pub fn reserve(&mut self, n: usize) -> Result<(), NoMemory>
        ensures rows { self.new.rows ≡ self.old.rows }
        ensures next { self.new.next ≡ self.old.next }
        ensures room { OnOk result (n ≤ self.new.room) }
        ensures kept { self.old.room ≤ self.new.room }
    {
        self.rows.reserve(n)?;
        Ok(())
    }

    /// The next number. No later call gives it again, up to the greatest number.
    pub fn number(&mut self) -> u64
        ensures number { result ≡ self.old.next }
        ensures next { self.new ≡ record self.old { next = number_behind self.old.next } }
    {
        let number = self.next;
        self.next = number.saturating_add(1);
        number
    }

    /// Adds one, and answers whether there was memory for it. It takes none where room was made; without
    /// memory the socket is closed.
    pub fn add(&mut self, number: u64, listener: TcpListener) -> bool
        ensures added { OnTrue result (self.new.rows ≡ self.old.rows ++ record { number = number; listener = listener } ∷ []) }
        ensures numbers { OnTrue result (open_numbers self.new ≡ open_numbers self.old ++ number ∷ []) }
        ensures full { OnFalse result (self.new.rows ≡ self.old.rows) }
        ensures next { self.new.next ≡ self.old.next }
        ensures found { 0 < self.old.room → IsTrue result }
        ensures room { self.old.room ≤ self.new.room + 1 }
    {
        self.rows.push(Descriptor { number, listener }).is_ok()
    }

    /// Whether it is open.
    pub fn is_open(&self, number: u64) -> bool
        ensures { result ≡ is_some (listener_of self.now number) }
    {
        self.get(number).is_some()
    }

    /// The socket, if it is open.
    pub fn get(&self, number: u64) -> Option<&TcpListener>
        ensures { option_copied result ≡ listener_of self.now number }
    {
        match self
            .rows
            .iter()
            .find(|descriptor| descriptor.number == number)
        {
            Some(descriptor) => Some(&descriptor.listener),
            None => None,
        }
    }

    /// Closes it, if it is open: its socket is dropped.
    pub fn close(&mut self, number: u64)
        ensures rows { self.new.rows ≡ rows_without number self.old.rows }
        ensures numbers { open_numbers self.new ≡ without number (open_numbers self.old) }
        ensures next { self.new.next ≡ self.old.next }
        ensures room { self.old.room ≤ self.new.room }
    {
        self.rows.retain(|descriptor| descriptor.number != number);
    }
}
