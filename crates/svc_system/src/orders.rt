//! What an operator says: a word on a line, and the path of a file behind one of them.

ghost use Rattle.std.specs.Prelude.{◌≡◌, ◌≢◌, ◌≤◌};
ghost use Rattle.std.specs.Str.{bytes_eq};
ghost use Rattle.svc_system.specs.Orders.{asks_upgrade, order_of};

/// The most bytes of a line that are kept: the word `upgrade`, a space, and the longest path that a system takes.
pub const LONGEST: usize = 4104;

/// The bytes of a line before the path of an upgrade.
const BEFORE_PATH: usize = 8;

/// What an operator asks for.
#[derive(Clone, Copy, PartialEq, Eq, Debug)]
pub enum Order {
    /// To be told how the server is.
    Status,
    /// That the server ends at once.
    Fast,
    /// That the server ends after its grace period.
    Terminate,
    /// That the server hands its sockets to a newer one of the file whose path stands behind the word.
    Upgrade,
}

/// The line is this word.
fn is_word(line: &[u8], word: &[u8]) -> bool
    ensures { result ≡ bytes_eq line.now word.now }
{
    line == word
}

/// The line is the word `upgrade`, one space, and a path.
fn asks_upgrade(line: &[u8]) -> bool
    ensures { result ≡ asks_upgrade line.now }
{
    line.len() > BEFORE_PATH && is_word(&line[..BEFORE_PATH], b"upgrade ")
}

/// What a line without its line feed asks for, if it is the word of an order and nothing else, or `upgrade` with a path
/// behind one space.
#[tactic(auto, unfolding(crate::specs::Orders::order_of))]
pub fn order_of(line: &[u8]) -> Option<Order>
    ensures { result ≡ order_of line.now }
{
    if is_word(line, b"status") {
        Some(Order::Status)
    } else if is_word(line, b"fast") {
        Some(Order::Fast)
    } else if is_word(line, b"terminate") {
        Some(Order::Terminate)
    } else if asks_upgrade(line) {
        Some(Order::Upgrade)
    } else {
        None
    }
}

/// A line of which not all has come yet, with the last one that was whole until more comes. Of one that is too long
/// for an order only that is kept.
#[derive(Drop)]
pub struct OrderLine {
    bytes: [u8; LONGEST],
    count: usize,
    is_long: bool,
    /// The length of the last whole line.
    said: usize,
    ghost within: { count ≤ 4104 },
    ghost whole: { said ≤ 4104 },
}

/// What a byte makes of a line.
#[derive(Clone, Copy)]
pub enum LineStep {
    /// The line goes on.
    On,
    /// It is whole, and asks for this.
    Order(Order),
    /// It is whole, and no order.
    Unknown,
}

impl OrderLine {
    ghost use Rattle.svc_system.specs.Lines.{known, path_in, step_of};

    /// Nothing came yet.
    pub fn new() -> Self
        ensures { result.count ≡ 0 }
    {
        OrderLine {
            bytes: [0u8; LONGEST],
            count: 0,
            is_long: false,
            said: 0,
        }
    }

    /// What the whole line asks for.
    fn order(&self) -> Option<Order>
        ensures { result ≡ known self.now }
    {
        if self.is_long {
            return None;
        }
        order_of(&self.bytes[..self.count])
    }

    /// One more byte of the line, if there is room for it.
    fn add(&mut self, byte: u8) {
        if self.count < LONGEST {
            self.bytes[self.count] = byte;
            self.count += 1;
        } else {
            self.is_long = true;
        }
    }

    /// Takes the next byte. A line feed ends the line, and the next one begins.
    pub fn take(&mut self, byte: u8) -> LineStep
        ensures on { byte ≢ 10 → result ≡ LineStep.On }
        ensures whole { byte ≡ 10 → result ≡ step_of (known self.old) }
        ensures next { byte ≡ 10 → self.new.count ≡ 0 }
        ensures said { byte ≡ 10 → self.new.said ≡ self.old.count }
        ensures kept { byte ≡ 10 → self.new.bytes ≡ self.old.bytes }
    {
        if byte != b'\n' {
            self.add(byte);
            return LineStep::On;
        }
        let order = self.order();
        self.said = self.count;
        self.count = 0;
        self.is_long = false;
        match order {
            Some(order) => LineStep::Order(order),
            None => LineStep::Unknown,
        }
    }

    /// The path of the last whole line, where that asked for an upgrade and nothing came behind it.
    pub fn path(&self) -> &[u8]
        ensures { result.now ≡ path_in self.now }
    {
        if self.said < BEFORE_PATH {
            return &[];
        }
        &self.bytes[BEFORE_PATH..self.said]
    }
}
