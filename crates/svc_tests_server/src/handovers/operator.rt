//! Fourteen handovers at whose end the address x is closed on both sides, since one premise of the operator's law is lacking.
//! Both servers keep every promise in them.

use super::*;

const ROWS: [&str; 14] = [
    // The address was first held after the signal.
    "old y+x | new y+x | - | old bound 0 0 5; old inuse 0 1; old signal upgrade; old moment 1000;
        old bound 0 1 7; old connected; old sent; new received y 3; new adopted 0 0; old moment 6000 |
        Taken | close 5; close 7; stop 5; phase Terminated 6000; | got adopted 0 0; bind 0 1;",
    // The new plan doesn't name it.
    "old x | new y | sent | new received x 3; old moment 5000 |
        Taken | close 7; stop 5; phase Terminated 5000; | got received 78 3; close 3; phase BootstrapComplete 0; start 0; bind 0 0; phase Running 0;",
    // The first signal is no upgrade.
    "old x | new x | - | old bound 0 0 7; old signal terminate |
        Listening | phase ShutdownGracePeriod 0; phase ShutdownRuntimes 0; close 7; stop 5; phase Terminated 0; | tryreceive;",
    "old x | new x | - | old bound 0 0 7; old signal fast |
        Listening | phase ShutdownStarted 0; phase ShutdownRuntimes 0; close 7; stop 0; phase Terminated 0; | tryreceive;",
    // The offer ends without being sent: the connection fails,
    "old x | new x | offered | old connectfailed; old moment 5000 | Listening | close 7; stop 5; phase Terminated 5000; | tryreceive;",
    // nobody is there, as often as is tried,
    "old x | new x | offered | old notthere; old moment 1000; old notthere; old moment 6000 |
        Listening | close 7; stop 5; phase Terminated 6000; | tryreceive;",
    // or 32 more addresses are live, so that no message says all.
    "old x+a+b+c+d+e+f+g+h+i+j+k+l+m+n+o+p+q+r+s+t+u+v+w+y+z+A+B+C+D+E+F+G | new x | - | old bound 0 0 7; old bound
        0 1 8; old bound 0 2 9; old bound 0 3 10; old bound 0 4 11; old bound 0 5 12; old bound 0 6 13; old bound 0 7
        14; old bound 0 8 15; old bound 0 9 16; old bound 0 10 17; old bound 0 11 18; old bound 0 12 19; old bound 0
        13 20; old bound 0 14 21; old bound 0 15 22; old bound 0 16 23; old bound 0 17 24; old bound 0 18 25; old
        bound 0 19 26; old bound 0 20 27; old bound 0 21 28; old bound 0 22 29; old bound 0 23 30; old bound 0 24 31;
        old bound 0 25 32; old bound 0 26 33; old bound 0 27 34; old bound 0 28 35; old bound 0 29 36; old bound 0 30
        37; old bound 0 31 38; old bound 0 32 39; old signal upgrade; old moment 5000 |
        Listening | close 38; close 39; stop 5; phase Terminated 5000; | tryreceive;",
    // An old service that names it fails.
    "old x+y | new x | - | old bound 0 0 7; old bindfailed 0 1 | Listening | got bindfailed 0 1; fail 0; close 7; | tryreceive;",
    // A new service that names it fails: it can't adopt it,
    "old x | new x | taken | new adoptfailed 0 0; old moment 5000 |
        Taken | close 7; stop 5; phase Terminated 5000; | got adoptfailed 0 0; fail 0; close 3;",
    // or can't bind its second address.
    "old x | new x+y | taken | new adopted 0 0; new bindfailed 0 1; old moment 5000 |
        Taken | close 7; stop 5; phase Terminated 5000; | got bindfailed 0 1; fail 0; close 3;",
    // The old server itself waits for a sender, and gives up.
    "second x | new x | - | old bound 0 0 7; old nosender; old moment 1000; old nosender |
        Listening | got moment 1000; tryreceive; got nosender; | tryreceive;",
    // The new one gives up waiting while the message is on its way,
    "old x | new x | sent | new nosender; new moment 1000; new nosender; old moment 5000 |
        InFlight | close 7; stop 5; phase Terminated 5000; | tryreceive; got nosender;",
    // or its receiving fails.
    "old x | new x | sent | new receivefailed; old moment 5000 | InFlight | close 7; stop 5; phase Terminated 5000; | tryreceive; got receivefailed;",
    // The new one is told to end.
    "old x | new x | taken | new adopted 0 0; new signal fast; old moment 5000 |
        Taken | close 7; stop 5; phase Terminated 5000; | phase ShutdownRuntimes 0; close 3; stop 0; phase Terminated 0;",
];

#[test]
fn each_premise_is_needed(rt: HostRuntime) {
    let alloc = rt.alloc();
    for row in ROWS {
        play(&rt, alloc, row);
    }
}
