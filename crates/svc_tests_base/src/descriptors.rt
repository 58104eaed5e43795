//! The table of descriptors, and its way through a channel.

use crate::checking::{holds, prints, same};
use std::collections::BTreeSet;
use std::process::Abort;
use svc_base::Text;
use svc_fds::{
    AddFdRefused, Channel, ChannelCall, DecodeError, EncodeError, Fd, Fds, ListsError,
    ListsRefused, MemoryChannel, ReceiveError, ReceiveKind, ReceiveNext, ReceiveRetry, SendAnswer,
    SendError, SendNext, SendRetry, SteadyChannel, send_fds_to,
};

fn text<R: Abort + AllocGlobal>(rt: &R, text: &str) -> Text {
    Text::new(rt.alloc(), text).expect(rt, "a text")
}

/// Adds an entry, and answers the number that it replaced.
pub(crate) fn put<R: Abort + AllocGlobal>(
    rt: &R,
    table: &mut Fds,
    bind: &str,
    number: u64,
) -> Option<u64> {
    match table.add(rt.alloc(), text(rt, bind), Fd::new(number)) {
        Ok(Some(held)) => Some(held.close()),
        Ok(None) => None,
        Err(refused) => {
            let AddFdRefused {
                reason: _,
                bind: _,
                fd,
            } = refused;
            Some(fd.close())
        }
    }
}

pub(crate) fn table_of<R: Abort + AllocGlobal>(rt: &R, pairs: &[(&str, u64)]) -> Fds {
    let mut table = Fds::new(rt.alloc());
    for (bind, number) in pairs {
        assert_eq!(rt; put(rt, &mut table, bind, *number), None);
    }
    table
}

/// Descriptors of these numbers.
pub(crate) fn descriptors<R: Abort + AllocGlobal>(rt: &R, numbers: &[u64]) -> Vec<Fd> {
    let mut fds = Vec::new(rt.alloc());
    for number in numbers {
        if let Err(failed) = fds.push(Fd::new(*number)) {
            let _ = failed.value.close();
        }
    }
    fds
}

/// Closes descriptors, and answers their numbers, the last first.
pub(crate) fn closed<R: Abort + AllocGlobal>(rt: &R, mut fds: Vec<Fd>) -> Vec<u64> {
    let mut numbers = Vec::new(rt.alloc());
    while let Some(fd) = fds.pop() {
        assert!(rt; numbers.push(fd.close()).is_ok());
    }
    fds.destroy_empty();
    numbers
}

/// Spends a table, and answers its addresses and its numbers.
pub(crate) fn spent<R: Abort + AllocGlobal>(rt: &R, mut table: Fds) -> String {
    let mut shown = String::new(rt.alloc());
    while let Some((bind, fd)) = table.pop_first() {
        let entry = format!(in rt.alloc(); "{} {};", bind.as_str(), fd.close());
        let entry = entry.expect(rt, "a text");
        assert!(rt; shown.push_str(entry.as_str()).is_ok());
    }
    table.finish();
    shown
}

pub(crate) const TWO: [(&str, u64); 2] = [("1.1.1.1:80", 128), ("1.1.1.1:443", 129)];

pub(crate) const TWO_SHOWN: &str = "1.1.1.1:443 129;1.1.1.1:80 128;";

#[test]
fn a_table_is_a_map(rt: HostRuntime) {
    let rt = &rt;
    let mut table = Fds::new(rt.alloc());
    same(rt, table.reserve(rt.alloc(), 2), Ok(()));
    for (bind, number, replaced) in [("b", 1, None), ("a", 2, None), ("b", 3, Some(1))] {
        same(rt, put(rt, &mut table, bind, number), replaced);
    }
    same(rt, table.get("b").map(|fd| fd.number()), Some(3));
    same(rt, table.remove("b").map(|fd| fd.close()), Some(3));
    holds(rt, !table.is_empty());
    same(rt, spent(rt, table).as_str(), "a 2;");
}

/// Adds lists to a table, and answers the numbers that they replaced, or why they are refused.
fn added<R: Abort + AllocGlobal>(
    rt: &R,
    table: &mut Fds,
    binds: Vec<Text>,
    fds: Vec<Fd>,
) -> Result<Vec<u64>, ListsError> {
    match table.deserialize(rt.alloc(), binds, fds) {
        Ok(replaced) => Ok(closed(rt, replaced)),
        Err(refused) => {
            let ListsRefused {
                reason,
                binds: _,
                fds,
            } = refused;
            let _ = closed(rt, fds);
            Err(reason)
        }
    }
}

#[test]
fn lists_are_taken_as_pairs(rt: HostRuntime) {
    let rt = &rt;
    let mut table = table_of(rt, &[("a", 1)]);
    let (binds, numbers) = table.serialize(rt.alloc()).expect(rt, "lists");
    same(rt, numbers.as_slice(), [1].as_slice());
    let replaced = added(rt, &mut table, binds, descriptors(rt, &[2]));
    let replaced = replaced.expect(rt, "numbers");
    same(rt, replaced.as_slice(), [1].as_slice());
    let refused = added(rt, &mut table, Vec::new(rt.alloc()), descriptors(rt, &[3]));
    same(rt, refused.err(), Some(ListsError::Unequal));
    same(rt, spent(rt, table).as_str(), "a 2;");
}

/// Closes what nobody claims, and answers it.
fn unclaimed<R: Abort + AllocGlobal>(rt: &R, table: &mut Fds, keep: &BTreeSet<Text>) -> String {
    let mut shown = String::new(rt.alloc());
    if let Ok(mut out) = table.close_unclaimed(rt.alloc(), keep) {
        while let Some((bind, fd)) = out.pop() {
            let _ = fd.close();
            assert!(rt; shown.push_str(bind.as_str()).is_ok());
        }
        out.destroy_empty();
    }
    shown
}

#[test]
fn what_nobody_claims_comes_back(rt: HostRuntime) {
    let rt = &rt;
    let mut keep = BTreeSet::new(rt.alloc());
    holds(rt, keep.insert(text(rt, "127.0.0.1:80")).is_ok());
    let mut table = table_of(rt, &[("127.0.0.1:80", 3), ("127.0.0.1:9090", 4)]);
    same(
        rt,
        unclaimed(rt, &mut table, &keep).as_str(),
        "127.0.0.1:9090",
    );
    same(rt, spent(rt, table).as_str(), "127.0.0.1:80 3;");
}

#[test]
fn sending_is_tried_as_often_as_it_may(rt: HostRuntime) {
    let rt = &rt;
    let failed = SendNext::Refused(SendError::Transfer);
    let mut retry = SendRetry::new(1);
    for (answer, next) in [
        (SendAnswer::NotThere, SendNext::Connect(1000)),
        (SendAnswer::StillConnecting, SendNext::Connect(500)),
        (
            SendAnswer::NotThere,
            SendNext::Refused(SendError::NoReceiver),
        ),
        (SendAnswer::Connected, SendNext::Send(0)),
        (SendAnswer::Sent, SendNext::Done),
        (SendAnswer::ConnectFailed, failed),
        (SendAnswer::SendFailed, failed),
    ] {
        same(rt, retry.step(answer), next);
    }
    let mut retry = SendRetry::new(0);
    for _ in 0..19 {
        same(rt, retry.step(SendAnswer::SendBusy), SendNext::Send(500));
    }
    let busy = SendNext::Refused(SendError::StillBusy);
    same(rt, retry.step(SendAnswer::SendBusy), busy);
}

#[test]
fn receiving_is_tried_as_often_as_it_may(rt: HostRuntime) {
    let mut retry = ReceiveRetry::new(1);
    for (kind, next) in [
        (ReceiveKind::NotYet, ReceiveNext::Receive(1000)),
        (
            ReceiveKind::NotYet,
            ReceiveNext::Refused(ReceiveError::NoSender),
        ),
        (ReceiveKind::Came, ReceiveNext::Done),
        (
            ReceiveKind::Failed,
            ReceiveNext::Refused(ReceiveError::Transfer),
        ),
    ] {
        same(&rt, retry.step(kind), next);
    }
}

#[test]
fn a_table_goes_through_a_channel(rt: HostRuntime) {
    let rt = &rt;
    let mut channel = SteadyChannel::new(rt.alloc(), 8).expect(rt, "a channel");
    holds(rt, channel.listen());
    let table = table_of(rt, &TWO);
    same(
        rt,
        table.send_to_sock(rt.alloc(), &mut channel, None),
        Ok(22),
    );
    let mut other = table_of(rt, &[("1.1.1.1:80", 7)]);
    same(
        rt,
        other.get_from_sock(rt.alloc(), &mut channel, None),
        Ok(()),
    );
    same(rt, channel.faults(), 0);
    holds(
        rt,
        matches!(channel.log().last(), Some(ChannelCall::Close(128))),
    );
    same(
        rt,
        spent(rt, other).as_str(),
        "1.1.1.1:443 129;1.1.1.1:80 7;",
    );
    same(rt, spent(rt, table).as_str(), TWO_SHOWN);
}

#[test]
fn a_channel_fails_at_the_listed_call(rt: HostRuntime) {
    let rt = &rt;
    for failing in 0..5u64 {
        let list = [failing].to_vec(rt.alloc()).expect(rt, "numbers");
        let mut channel = MemoryChannel::new(rt.alloc(), 16, list).expect(rt, "a channel");
        same(rt, channel.listen(), failing != 0);
        channel.set_busy(1);
        let sent = send_fds_to(&[5], b"a:1 a:1", &mut channel, Some(0));
        same(rt, sent.is_ok(), failing == 4);
        same(rt, channel.faults(), u64::from(failing < 4));
        let mut table = Fds::new(rt.alloc());
        let came = table.get_from_sock(rt.alloc(), &mut channel, Some(0));
        let want = if failing == 4 {
            ReceiveError::Transfer
        } else {
            ReceiveError::NoSender
        };
        same(rt, came, Err(want));
        same(rt, spent(rt, table).as_str(), "");
    }
}

#[test]
fn errors_have_texts(rt: HostRuntime) {
    let rt = &rt;
    prints(rt, EncodeError::BadAddress, "an address is empty");
    prints(rt, EncodeError::TooLong, "the message is too long");
    prints(rt, EncodeError::TooMany, "too many descriptors");
    prints(rt, EncodeError::NoMemory, "out of memory");
    prints(rt, DecodeError::NoMemory, "out of memory");
    let unequal = "unequal numbers of addresses and descriptors";
    prints(rt, ListsError::Unequal, unequal);
    prints(rt, ListsError::Repeated, "an address stands twice");
    prints(rt, ListsError::NoMemory, "out of memory");
}

#[test]
fn errors_of_a_transfer_have_texts(rt: HostRuntime) {
    let rt = &rt;
    prints(rt, SendError::BadAddress, "an address is empty");
    prints(rt, SendError::TooLong, "the message is too long");
    prints(rt, SendError::TooMany, "too many descriptors");
    prints(rt, SendError::Transfer, "the transfer failed");
    prints(rt, SendError::NoReceiver, "no receiver");
    prints(rt, SendError::StillBusy, "the receiver is still busy");
    prints(rt, SendError::NoMemory, "out of memory");
    let unequal = "unequal numbers of addresses and descriptors";
    prints(rt, ReceiveError::Unequal, unequal);
    prints(rt, ReceiveError::Repeated, "an address stands twice");
    prints(rt, ReceiveError::NotUtf8, "the message isn't UTF-8");
    let form = "the message has lengths that don't fit its words";
    prints(rt, ReceiveError::BadForm, form);
    prints(rt, ReceiveError::Transfer, "the transfer failed");
    prints(rt, ReceiveError::NoSender, "no sender");
    prints(rt, ReceiveError::NoMemory, "out of memory");
}
