//! What holds of the texts of peers.

ghost use Rattle.std.specs.Prelude.{◌≡◌, ◌<◌, Some, length, IsTrue, nat_lt};
ghost use Rattle.std.specs.List.{list_all};
ghost use Rattle.svc_socket.specs.Peers.{PeerFits, peer_text};
ghost use Rattle.svc_socket.specs.ReadPeers.{peer_of};
ghost use Rattle.svc_socket.specs.declared.peer.Peer.{Peer};

/// A peer is read back from its text.
pub fn peers_read_back()
    ensures { (x : Peer) → PeerFits x → peer_of (peer_text x) ≡ Some x }
{}

/// The text of a peer is a word: it has no blank and no byte below, and isn't empty.
pub fn peers_are_words()
    ensures some { (x : Peer) → 0 < length (peer_text x) }
    ensures visible { (x : Peer) → PeerFits x → IsTrue (list_all (λ b. nat_lt 32 b) (peer_text x)) }
{}
