//! The handover message in its two versions: what is written, what is read, and what is refused.

ghost use Rattle.std.specs.Prelude.{◌<◌};

use crate::checking::{holds, same};
use crate::descriptors::{TWO, TWO_SHOWN, closed, descriptors, put, spent, table_of};
use std::process::Abort;
use svc_fds::{
    Channel, DecodeError, DecodeRefused, EncodeError, Fds, ReceiveError, SendError, SteadyChannel,
    send_fds_to,
};

/// A digit of a hexadecimal number.
fn digit(byte: u8) -> u8
    ensures { result < 16 }
{
    match byte {
        b'0'..=b'9' => byte - b'0',
        b'a'..=b'f' => byte - b'a' + 10,
        _ => 0,
    }
}

/// The bytes of which these are the hexadecimal digits.
fn unhexed<R: Abort + AllocGlobal>(rt: &R, digits: &str) -> Vec<u8> {
    let mut bytes = Vec::new(rt.alloc());
    let mut rest = digits.as_bytes();
    while let [high, low, after @ ..] = rest {
        holds(rt, bytes.push(digit(*high) * 16 + digit(*low)).is_ok());
        rest = after;
    }
    bytes
}

/// Decodes a message, and answers the table, or why there is none and the numbers that come back.
fn decoded<R: Abort + AllocGlobal>(rt: &R, bytes: &[u8], numbers: &[u64]) -> String {
    match Fds::decode(rt.alloc(), bytes, descriptors(rt, numbers)) {
        Ok(table) => spent(rt, table),
        Err(refused) => {
            let DecodeRefused { reason, fds } = refused;
            let back = closed(rt, fds);
            format!(in rt.alloc(); "{reason} {back:?}").expect(rt, "a text")
        }
    }
}

/// The bytes that a table is written as, which are read as the table.
fn written<R: Abort + AllocGlobal>(rt: &R, pairs: &[(&str, u64)], shown: &str) -> Vec<u8> {
    let table = table_of(rt, pairs);
    let message = table.encode(rt.alloc()).expect(rt, "a message");
    let bytes = message.bytes.as_slice();
    same(rt, spent(rt, table).as_str(), shown);
    same(
        rt,
        decoded(rt, bytes, message.fds.as_slice()).as_str(),
        shown,
    );
    bytes.to_vec(rt.alloc()).expect(rt, "bytes")
}

#[test]
fn version_1_is_written_where_it_suffices(rt: HostRuntime) {
    let rt = &rt;
    for (pairs, shown, bytes) in [
        (
            TWO.as_slice(),
            TWO_SHOWN,
            b"1.1.1.1:443 1.1.1.1:80".as_slice(),
        ),
        ([].as_slice(), "", b"".as_slice()),
        (
            [("v2", 5u64), ("3:a", 6)].as_slice(),
            "3:a 6;v2 5;",
            b"3:a v2".as_slice(),
        ),
        ([("a\x0b", 1)].as_slice(), "a\x0b 1;", b"a\x0b".as_slice()),
    ] {
        same(rt, written(rt, pairs, shown).as_slice(), bytes);
    }
}

#[test]
fn version_2_is_written_where_an_address_has_a_blank(rt: HostRuntime) {
    let rt = &rt;
    let bytes = written(rt, &[("a b", 3)], "a b 3;");
    same(
        rt,
        bytes.as_slice(),
        unhexed(rt, "20763220333a612062").as_slice(),
    );
    for (pairs, shown, bytes) in [
        (
            [("b", 4), ("a\t\n", 3u64)].as_slice(),
            "a\t\n 3;b 4;",
            b" v2 3:a\t\n1:b".as_slice(),
        ),
        (
            [("\u{e9} \u{e9}", 3)].as_slice(),
            "\u{e9} \u{e9} 3;",
            b" v2 5:\xc3\xa9 \xc3\xa9".as_slice(),
        ),
        (
            [(" v2 ", 3)].as_slice(),
            " v2  3;",
            b" v2 4: v2 ".as_slice(),
        ),
        (
            [("a\x0c", 3)].as_slice(),
            "a\x0c 3;",
            b" v2 2:a\x0c".as_slice(),
        ),
    ] {
        same(rt, written(rt, pairs, shown).as_slice(), bytes);
    }
}

/// The length of a table's message, or why it has none.
fn length<R: Abort + AllocGlobal>(rt: &R, table: Fds) -> Result<u64, EncodeError> {
    let answer = match table.encode(rt.alloc()) {
        Ok(message) => Ok(message.bytes.len()),
        Err(error) => Err(error),
    };
    let _ = spent(rt, table);
    answer
}

#[test]
fn what_neither_version_says_is_refused(rt: HostRuntime) {
    let rt = &rt;
    for (bytes, want) in [
        (2048usize, Ok(2048u64)),
        (2049, Ok(2058)),
        (65_526, Ok(65_536)),
        (65_527, Err(EncodeError::TooLong)),
        (0, Err(EncodeError::BadAddress)),
    ] {
        let mut long = String::new(rt.alloc());
        for _ in 0..bytes {
            holds(rt, long.push('x').is_ok());
        }
        same(rt, length(rt, table_of(rt, &[(long.as_str(), 1)])), want);
    }
}

#[test]
fn a_message_has_at_most_32_descriptors(rt: HostRuntime) {
    let rt = &rt;
    for (count, want) in [(32u64, Ok(85u64)), (33, Err(EncodeError::TooMany))] {
        let mut table = Fds::new(rt.alloc());
        for number in 0..count {
            let bind = format!(in rt.alloc(); "{number}").expect(rt, "a text");
            same(rt, put(rt, &mut table, bind.as_str(), number), None);
        }
        same(rt, length(rt, table), want);
    }
}

#[test]
fn both_versions_are_read(rt: HostRuntime) {
    let rt = &rt;
    for (bytes, numbers, shown) in [
        (b"".as_slice(), [].as_slice(), ""),
        (b" \t\r".as_slice(), [].as_slice(), ""),
        (
            b"a:443\x0b\t b:80\r".as_slice(),
            [3u64, 4].as_slice(),
            "a:443\x0b 3;b:80 4;",
        ),
        (b" v2".as_slice(), [3].as_slice(), "v2 3;"),
        (b" v2\t1:a".as_slice(), [3, 4].as_slice(), "1:a 4;v2 3;"),
        (b"  v2 1:a".as_slice(), [3, 4].as_slice(), "1:a 4;v2 3;"),
        (b"v2 1:a".as_slice(), [3, 4].as_slice(), "1:a 4;v2 3;"),
        (b" v2 ".as_slice(), [].as_slice(), ""),
        (b" v2 1:a".as_slice(), [3].as_slice(), "a 3;"),
        (b" v2 1:b1:a".as_slice(), [3, 4].as_slice(), "a 4;b 3;"),
        (
            b" v2 4:1:a:2: \n".as_slice(),
            [3, 4].as_slice(),
            " \n 4;1:a: 3;",
        ),
        (
            b"a:1".as_slice(),
            [3, 4].as_slice(),
            "unequal numbers of addresses and descriptors [4, 3]",
        ),
        (
            b" v2 1:".as_slice(),
            [3].as_slice(),
            "the message has lengths that don't fit its words [3]",
        ),
    ] {
        same(rt, decoded(rt, bytes, numbers).as_str(), shown);
    }
}

/// Bytes in hexadecimal, a number of descriptors, and why the two aren't a message. Beside each the bytes
/// as text.
const REFUSED: [(&str, usize, DecodeError); 42] = [
    // The bytes aren't UTF-8, whatever else they are.
    ("ff", 1, DecodeError::NotUtf8),
    ("61ff", 7, DecodeError::NotUtf8),
    ("ff20ff", 2, DecodeError::NotUtf8),
    ("20763220313aff", 1, DecodeError::NotUtf8), // ` v2 1:`
    ("2076322030313aff", 1, DecodeError::NotUtf8), // ` v2 01:`
    ("20763220313ac3", 1, DecodeError::NotUtf8), // ` v2 1:`
    ("20763220eda080", 0, DecodeError::NotUtf8), // ` v2 `
    // They begin as version 2, and no length follows.
    ("2076322061", 1, DecodeError::BadForm), // ` v2 a`
    ("207632203a61", 1, DecodeError::BadForm), // ` v2 :a`
    ("2076322031", 1, DecodeError::BadForm), // ` v2 1`
    ("2076322020", 0, DecodeError::BadForm), // ` v2  `
    ("2076322020313a61", 1, DecodeError::BadForm), // ` v2  1:a`
    ("2076322031203a61", 1, DecodeError::BadForm), // ` v2 1 :a`
    ("207632202b313a61", 1, DecodeError::BadForm), // ` v2 +1:a`
    ("207632202d313a61", 1, DecodeError::BadForm), // ` v2 -1:a`
    ("207632203078313a61", 1, DecodeError::BadForm), // ` v2 0x1:a`
    ("20763220d9a13a61", 1, DecodeError::BadForm), // a digit that isn't ASCII
    // The length has a leading zero, or is 0.
    ("2076322030333a612062", 1, DecodeError::BadForm), // ` v2 03:a b`
    ("2076322030303a", 1, DecodeError::BadForm), // ` v2 00:`
    ("20763220303a", 1, DecodeError::BadForm), // ` v2 0:`
    ("20763220313a61303a", 2, DecodeError::BadForm), // ` v2 1:a0:`
    // It is too great.
    ("20763220333a61", 1, DecodeError::BadForm), // ` v2 3:a`
    ("20763220323a61", 1, DecodeError::BadForm), // ` v2 2:a`
    ("20763220313a", 1, DecodeError::BadForm), // ` v2 1:`
    (
        "2076322031383434363734343037333730393535313631363a61",
        1,
        DecodeError::BadForm,
    ), // ` v2 18446744073709551616:a`
    (
        "2076322031383434363734343037333730393535313631373a61",
        1,
        DecodeError::BadForm,
    ), // ` v2 18446744073709551617:a`
    // A word reaches into the next, or something stands between or behind the words.
    ("20763220323a61313a62", 2, DecodeError::BadForm), // ` v2 2:a1:b`
    ("20763220313a6120313a62", 2, DecodeError::BadForm), // ` v2 1:a 1:b`
    ("20763220313a6120", 1, DecodeError::BadForm), // ` v2 1:a `
    ("20763220313a6162", 1, DecodeError::BadForm), // ` v2 1:ab`
    ("20763220313a610a", 1, DecodeError::BadForm), // ` v2 1:a` and a line feed
    // A length counts bytes, and no word ends within a character.
    ("20763220313ac3a9", 1, DecodeError::BadForm), // a character of two bytes after ` v2 1:`
    ("20763220333ac3a9c3a9", 1, DecodeError::BadForm), // two of them after ` v2 3:`
    // The form is looked at before the number of words, and this before repeated ones.
    ("2076322030313a61313a61", 7, DecodeError::BadForm), // ` v2 01:a1:a`
    ("20763220", 1, DecodeError::Unequal), // ` v2 `
    ("20763220313a61313a61", 1, DecodeError::Unequal), // ` v2 1:a1:a`
    ("20763220313a61313a61", 3, DecodeError::Unequal), // ` v2 1:a1:a`
    ("", 1, DecodeError::Unequal),
    ("612062", 3, DecodeError::Unequal), // `a b`
    ("612061", 3, DecodeError::Unequal), // `a a`
    ("20763220313a61313a61", 2, DecodeError::Repeated), // ` v2 1:a1:a`
    ("612061", 2, DecodeError::Repeated), // `a a`
];

/// Why bytes and so many descriptors aren't a message; all of them come back.
fn refusal<R: Abort + AllocGlobal>(rt: &R, bytes: &[u8], count: usize) -> Option<DecodeError> {
    let numbers = [3u64, 4, 5, 6, 7, 8, 9];
    let fds = descriptors(rt, &numbers[..count.min(7)]);
    match Fds::decode(rt.alloc(), bytes, fds) {
        Ok(table) => {
            let _ = spent(rt, table);
            None
        }
        Err(refused) => {
            let DecodeRefused { reason, fds } = refused;
            same(rt, closed(rt, fds).len(), count);
            Some(reason)
        }
    }
}

#[test]
fn what_is_no_message_is_refused(rt: HostRuntime) {
    let rt = &rt;
    for (digits, count, want) in REFUSED {
        let bytes = unhexed(rt, digits);
        same(rt, refusal(rt, bytes.as_slice(), count), Some(want));
    }
}

#[test]
fn both_versions_go_through_a_channel(rt: HostRuntime) {
    let rt = &rt;
    for (bind, bytes, shown) in [("a:1", 3u64, "a:1 5;"), ("a 1", 9, "a 1 5;")] {
        let mut channel = SteadyChannel::new(rt.alloc(), 8).expect(rt, "a channel");
        holds(rt, channel.listen());
        let table = table_of(rt, &[(bind, 5)]);
        let sent = table.send_to_sock(rt.alloc(), &mut channel, None);
        same(rt, sent, Ok(bytes));
        let mut other = Fds::new(rt.alloc());
        let came = other.get_from_sock(rt.alloc(), &mut channel, None);
        same(rt, came, Ok(()));
        same(rt, spent(rt, other).as_str(), shown);
        same(rt, spent(rt, table).as_str(), shown);
    }
}

#[test]
fn a_receiver_passes_the_cause_on(rt: HostRuntime) {
    let rt = &rt;
    for (bytes, want) in [
        (b" v2 03:a b".as_slice(), ReceiveError::BadForm),
        (b" v2 1:a".as_slice(), ReceiveError::Unequal),
        (b" v2 1:a1:a".as_slice(), ReceiveError::Repeated),
        (b" v2 1:\xff".as_slice(), ReceiveError::NotUtf8),
    ] {
        let mut channel = SteadyChannel::new(rt.alloc(), 16).expect(rt, "a channel");
        holds(rt, channel.listen());
        let sent = send_fds_to(&[5, 6], bytes, &mut channel, None);
        same(rt, sent, Ok(bytes.len() as u64));
        let mut table = Fds::new(rt.alloc());
        let came = table.get_from_sock(rt.alloc(), &mut channel, None);
        same(rt, came, Err(want));
        same(rt, spent(rt, table).as_str(), "");
    }
}

#[test]
fn a_payload_has_at_most_65536_bytes(rt: HostRuntime) {
    let rt = &rt;
    let mut channel = SteadyChannel::new(rt.alloc(), 8).expect(rt, "a channel");
    holds(rt, channel.listen());
    let mut payload = Vec::new(rt.alloc());
    for _ in 0..65_536 {
        holds(rt, payload.push(b'x').is_ok());
    }
    let sent = send_fds_to(&[], payload.as_slice(), &mut channel, None);
    same(rt, sent, Ok(65_536));
    holds(rt, payload.push(b'x').is_ok());
    let sent = send_fds_to(&[], payload.as_slice(), &mut channel, None);
    same(rt, sent, Err(SendError::TooLong));
}
