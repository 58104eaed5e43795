//! Words of a record's lines that stand for a value of no type of this crate.

ghost use Rattle.std.specs.Prelude.{Some, ◌∷◌};
ghost use Rattle.std.specs.List.{flat_map};
ghost use Rattle.svc_record.specs.Text.{hex_byte, bytes_word, numbers_word, ok_word, yes_word, setting_word};

use std::fmt;
use svc_base::Setting;

/// Whether it went well.
#[derive(Clone, Copy)]
pub struct OkWord(pub bool);

/// What a filter said.
#[derive(Clone, Copy)]
pub struct YesWord(pub bool);

/// A byte in two lower-case hexadecimal digits.
#[derive(Clone, Copy)]
pub struct HexByte(pub u8);

/// Bytes in one word, and a dash for none.
#[derive(Clone, Copy)]
pub struct HexBytes<'a>(pub &'a [u8]);

/// Descriptor numbers in one word, joined by commas, and a dash for none.
#[derive(Clone, Copy)]
pub struct FdNumbers<'a>(pub &'a [u64]);

/// The word of a setting.
#[derive(Clone, Copy)]
pub struct SettingWord(pub Setting);

/// The words of settings, with a space before each.
#[derive(Clone, Copy)]
pub struct SettingWords<'a>(pub &'a [Setting]);

impl fmt::Display for OkWord {
    ghost output = { λ w. Some (ok_word w.0) };

    fn fmt<W: fmt::Write>(&self, f: &mut fmt::Formatter<W>) -> fmt::Result {
        if self.0 {
            write!(f, "ok")
        } else {
            write!(f, "no")
        }
    }
}

impl fmt::Display for YesWord {
    ghost output = { λ w. Some (yes_word w.0) };

    fn fmt<W: fmt::Write>(&self, f: &mut fmt::Formatter<W>) -> fmt::Result {
        if self.0 {
            write!(f, "yes")
        } else {
            write!(f, "no")
        }
    }
}

impl fmt::Display for HexByte {
    ghost output = { λ b. Some (hex_byte b.0) };

    #[tactic(auto, using(std::proofs::lemmas::Fmt::hex_byte))]
    fn fmt<W: fmt::Write>(&self, f: &mut fmt::Formatter<W>) -> fmt::Result {
        let byte = self.0;
        write!(f, "{byte:02x}")
    }
}

impl fmt::Display for HexBytes<'_> {
    ghost output = { λ s. Some (bytes_word s.0.now) };

    fn fmt<W: fmt::Write>(&self, f: &mut fmt::Formatter<W>) -> fmt::Result {
        if self.0.is_empty() {
            return write!(f, "-");
        }
        for byte in self.0 {
            let digits = HexByte(*byte);
            write!(f, "{digits}")?;
        }
        Ok(())
    }
}

impl fmt::Display for FdNumbers<'_> {
    ghost output = { λ s. Some (numbers_word s.0.now) };

    fn fmt<W: fmt::Write>(&self, f: &mut fmt::Formatter<W>) -> fmt::Result {
        match self.0 {
            [] => write!(f, "-"),
            [first, others @ ..] => {
                write!(f, "{first}")?;
                for fd in others {
                    write!(f, ",{fd}")?;
                }
                Ok(())
            }
        }
    }
}

impl fmt::Display for SettingWord {
    ghost output = { λ s. Some (setting_word s.0) };

    fn fmt<W: fmt::Write>(&self, f: &mut fmt::Formatter<W>) -> fmt::Result {
        match self.0 {
            Setting::NoDelay => write!(f, "nodelay"),
            Setting::KeepAlive(k) => {
                let (idle, interval, count, timeout) = (
                    k.idle,
                    k.interval,
                    k.count,
                    k.user_timeout,
                );
                write!(f, "keepalive={idle},{interval},{count},{timeout}")
            }
            Setting::Dscp(n) => write!(f, "dscp={n}"),
            Setting::SndBuf(n) => write!(f, "sndbuf={n}"),
            Setting::RcvBuf(n) => write!(f, "rcvbuf={n}"),
        }
    }
}

impl fmt::Display for SettingWords<'_> {
    ghost output = { λ s. Some (flat_map (λ x. 32 ∷ setting_word x) s.0.now) };

    fn fmt<W: fmt::Write>(&self, f: &mut fmt::Formatter<W>) -> fmt::Result {
        for setting in self.0 {
            let word = SettingWord(*setting);
            write!(f, " {word}")?;
        }
        Ok(())
    }
}
