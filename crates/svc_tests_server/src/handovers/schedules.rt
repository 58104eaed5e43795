//! Each answer at each state of the channel, delays, signals to both sides, and retries up to their bounds.

use super::*;
use svc_handover::ChannelState;

/// An old server that holds the address x, against a successor, a server that takes nothing over, and one
/// that listens late.
const ROWS: [&str; 63] = [
    "old x | new x | - | old bound 0 0 7 | Listening | phase Running 0; got bound 0 0 7; | phase Bootstrap 0; openreceiver; tryreceive;",
    "old x | new x | - | old signal upgrade | Listening | phase ShutdownRuntimes 0; stop 5; phase Terminated 0; | tryreceive;",
    "old x | new x | - | old bound 0 0 7; old signal fast | Listening | close 7; stop 0; phase Terminated 0; | tryreceive;",
    "old x | new x | - | old bound 0 0 7; old signal terminate | Listening | close 7; stop 5; phase Terminated 0; | tryreceive;",
    "old x | new x | - | new nosender; new moment 999 | Listening | phase Running 0; | got nosender; got moment 999;",
    "old x | new x | - | new nosender; new moment 1000 | Listening | phase Running 0; | got nosender; got moment 1000; tryreceive;",
    "old x | new x | - | new nosender; new moment 1000; new nosender | Listening | phase Running 0; | tryreceive; got nosender;",
    "old x | new x | - | new receivefailed | Listening | phase Running 0; | tryreceive; got receivefailed;",
    "old x | new x | offered | | Listening | got signal upgrade; phase GracefulUpgradeTransferringFds 0; connect; | tryreceive;",
    "old x | new x | offered | old notthere; old moment 999 | Listening | got notthere; got moment 999; | tryreceive;",
    "old x | new x | offered | old notthere; old moment 1000 | Listening | got notthere; got moment 1000; connect; | tryreceive;",
    "old x | new x | offered | old notthere; old moment 1000; old notthere |
        Listening | connect; got notthere; phase GracefulUpgradeCloseTimeout 1000; | tryreceive;",
    "old x | new x | offered | old connecting; old moment 499 | Listening | got connecting; got moment 499; | tryreceive;",
    "old x | new x | offered | old connecting; old moment 500 | Listening | got connecting; got moment 500; connect; | tryreceive;",
    "old x | new x | offered | old connectfailed | Listening | connect; got connectfailed; phase GracefulUpgradeCloseTimeout 0; | tryreceive;",
    "old x | new x | offered | new nosender | Listening | connect; | tryreceive; got nosender;",
    "old x | new x | offered | old signal terminate; old connected | Connected | got signal terminate; got connected; send 78 7; | tryreceive;",
    "old x | new x | connected | | Connected | connect; got connected; send 78 7; | tryreceive;",
    "old x | new x | connected | new nosender | Connected | send 78 7; | tryreceive; got nosender;",
    "old x | new x | connected | old sendbusy; old moment 499 | Connected | send 78 7; got sendbusy; got moment 499; | tryreceive;",
    "old x | new x | connected | old sendbusy; old moment 500 | Connected | got sendbusy; got moment 500; send 78 7; | tryreceive;",
    "old x | new x | connected | old sendbusy; old moment 500; old sent | InFlight | got sent; phase GracefulUpgradeCloseTimeout 500; | tryreceive;",
    "old x | new x | connected | old sendfailed | Connected | got sendfailed; phase GracefulUpgradeCloseTimeout 0; | tryreceive;",
    "old x | new x | sent | | InFlight | got sent; phase GracefulUpgradeCloseTimeout 0; | tryreceive;",
    "old x | new x | sent | new nosender; new moment 1000 | InFlight | phase GracefulUpgradeCloseTimeout 0; | got moment 1000; tryreceive;",
    "old x | new x | sent | new receivefailed | InFlight | phase GracefulUpgradeCloseTimeout 0; | tryreceive; got receivefailed;",
    "old x | new x | sent | old moment 4999 | InFlight | phase GracefulUpgradeCloseTimeout 0; got moment 4999; | tryreceive;",
    "old x | new x | sent | old moment 5000 | InFlight | phase ShutdownRuntimes 5000; close 7; stop 5; phase Terminated 5000; | tryreceive;",
    "old x | new x | sent | old moment 5000; new received x 7 | Taken | phase Terminated 5000; | start 0; adopt 0 0 7; phase Running 0;",
    "old x | new x | taken | | Taken |
        phase GracefulUpgradeCloseTimeout 0; | got received 78 3; phase BootstrapComplete 0; start 0; adopt 0 0 3; phase Running 0;",
    "old x | new x | taken | new adopted 0 0 | Taken | phase GracefulUpgradeCloseTimeout 0; | phase Running 0; got adopted 0 0;",
    "old x | new x | taken | new adoptfailed 0 0 | Taken | phase GracefulUpgradeCloseTimeout 0; | got adoptfailed 0 0; fail 0; close 3;",
    "old x | new x | taken | new adopted 0 0; new signal terminate; old moment 5000 |
        Taken | close 7; stop 5; phase Terminated 5000; | close 3; stop 5; phase Terminated 0;",
    "old x | new x | taken | old moment 5000; new adopted 0 0 | Taken | close 7; stop 5; phase Terminated 5000; | phase Running 0; got adopted 0 0;",
    "old x | new x | - | new received x 3 | step 1 may not come",
    "old x | new x | - | new signal fast | step 1 may not come",
    "old x | new x | - | old connected | step 1 may not come",
    "old x | new x | offered | old sent | step 3 may not come",
    "old x | new x | offered | new received x 3 | step 3 may not come",
    "old x | new x | - | new receivefailed; new moment 5 | step 2 may not come",
    "old x | new x | - | new nosender; new moment 1000; new nosender; new moment 2000 | step 4 may not come",
    "old x | new x | connected | old connected | step 4 may not come",
    "old x | new x | connected | old notthere | step 4 may not come",
    "old x | new x | connected | new received x 3 | step 4 may not come",
    "old x | new x | connected | old sendbusy; old sent | step 5 may not come",
    "old x | new x | sent | old sent | step 5 may not come",
    "old x | new x | sent | new received y 3 | step 5 may not come",
    "old x | new x | sent | new received x | step 5 may not come",
    "old x | new x | sent | new received x 3 4 | step 5 may not come",
    "old x | new x | taken | new received x 4 | step 6 may not come",
    "old x | new x | sent | old moment 5000; old moment 6000 | step 6 may not come",
    "old x | old x | offered | old notthere | Missing | connect; got notthere; | start 0; bind 0 0; phase Running 0;",
    "old x | old x | offered | old connecting | Missing | connect; got connecting; | bind 0 0; phase Running 0;",
    "old x | old x | offered | old connectfailed | Missing | got connectfailed; phase GracefulUpgradeCloseTimeout 0; | bind 0 0; phase Running 0;",
    "old x | old x | offered | old connected | step 3 may not come",
    "old x | old x | offered | old sendbusy | step 3 may not come",
    "old x | old x | offered | new nosender | step 3 may not come",
    "old x | old x | offered | new received x 3 | step 3 may not come",
    "old x | late x | offered | | Missing | connect; | start 0; bind 0 0; phase Running 0;",
    "old x | late x | offered | new ready 0 | Listening | connect; | got ready 0; start 1; phase Bootstrap 0; openreceiver; tryreceive;",
    "old x | late x | offered | new ready 0; old connected; old sent; new received x 3 |
        Taken | phase GracefulUpgradeCloseTimeout 0; | got received 78 3; phase BootstrapComplete 0;",
    "old x | late x | offered | new ready 0; old connected; old sent; new received x 3; new inuse 0 0 |
        Taken | phase GracefulUpgradeCloseTimeout 0; | got inuse 0 0; adopt 0 0 3;",
    "old x | late x | offered | old connected; new ready 0 | step 3 may not come",
];

#[test]
fn schedules_leave_their_channel(rt: HostRuntime) {
    let alloc = rt.alloc();
    for row in ROWS {
        play(&rt, alloc, row);
    }
}

/// The worked handover, with both records whole.
#[test]
fn a_successor_takes_the_address(rt: HostRuntime) {
    let alloc = rt.alloc();
    let steps = "old bound 0 0 7; old signal upgrade; old connected; old sent;
        new received 127.0.0.1:80 3; new adopted 0 0";
    let old = "start 0; bind 0 0; phase Running 0; got bound 0 0 7; got signal upgrade;
        phase GracefulUpgradeTransferringFds 0; connect; got connected;
        send 3132372e302e302e313a3830 7; got sent; phase GracefulUpgradeCloseTimeout 0;";
    let new = "phase Bootstrap 0; openreceiver; tryreceive;
        got received 3132372e302e302e313a3830 3; phase BootstrapComplete 0; start 0;
        adopt 0 0 3; phase Running 0; got adopted 0 0;";
    let left = run(&rt, alloc, "old 127.0.0.1:80", "new 127.0.0.1:80", steps).expect(
        &rt,
        "each step may come",
    );
    assert_eq!(rt; left.channel, ChannelState::Taken);
    assert_eq!(rt; left.old.len(), 11);
    ends(&rt, alloc, left.old.as_slice(), old, steps);
    assert_eq!(rt; left.new.len(), 9);
    ends(&rt, alloc, left.new.as_slice(), new, steps);
}

/// So many times the answer, with a moment after each but the last, so many milliseconds later.
fn repeated(
    rt: &impl Abort,
    alloc: Global,
    (start, answer): (&str, &str),
    (times, rest): (u64, u64),
) -> String {
    let mut steps = String::new(alloc);
    steps.push_str(start).expect(rt, "memory");
    for k in 1..times {
        let ms = k.saturating_mul(rest);
        let more = format!(in alloc; "{answer}; old moment {ms}; ").expect(rt, "memory");
        steps.push_str(&more).expect(rt, "memory");
    }
    steps.push_str(answer).expect(rt, "memory");
    steps
}

/// The old record ends so after so many answers.
fn tries(
    rt: &impl Abort,
    alloc: Global,
    (word, answer): (&str, &str),
    bound: (u64, u64),
    end: &str,
) {
    let steps = repeated(rt, alloc, (start_of(word), answer), bound);
    let left = run(rt, alloc, "old x", "new x", steps.as_str()).expect(rt, "each step may come");
    ends(rt, alloc, left.old.as_slice(), end, answer);
}

#[test]
fn tries_end_at_their_bounds(rt: HostRuntime) {
    let alloc = rt.alloc();
    let busy = ("offered", "old connecting");
    tries(
        &rt,
        alloc,
        busy,
        (19, 500),
        "got moment 9000; connect; got connecting;",
    );
    tries(
        &rt,
        alloc,
        busy,
        (20, 500),
        "got connecting; phase GracefulUpgradeCloseTimeout 9500;",
    );
    let delayed = ("connected", "old sendbusy");
    tries(
        &rt,
        alloc,
        delayed,
        (20, 500),
        "got sendbusy; phase GracefulUpgradeCloseTimeout 9500;",
    );
    let in_use = ("-", "old inuse 0 0");
    tries(
        &rt,
        alloc,
        in_use,
        (29, 1000),
        "got moment 28000; bind 0 0; got inuse 0 0;",
    );
    tries(
        &rt,
        alloc,
        in_use,
        (30, 1000),
        "got moment 29000; bind 0 0; got inuse 0 0; fail 0;",
    );
}
