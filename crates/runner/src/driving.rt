// The calling thread's part of a run.
ghost use Rattle.std.specs.Prelude.{All};
ghost use Rattle.rings.specs.Boards.{WatchOf};
ghost use Rattle.clients.specs.Clients.{AreSameClients};

use crate::lull::Lull;
use clients::{Client, call_all};
use std::rt::Clock;
use std::sync::Wait;
use std::thread;
use std::time::Duration;
use sysring::{Board, Serving, Watch};

// How many microseconds it rests after a round in which no client handed anything in or got an
// answer: twice as long after each further one, up to the longest.
const SHORTEST_REST: u64 = 50;

const LONGEST_REST: u64 = 200;

/// Calls the clients in turn until each has all its answers, or the workers have ended, or nothing
/// has moved for a second since memory is refused, and then asks for a shutdown: so by its code. It
/// answers whether it was for the memory. What is promised is that these are the same clients. The
/// watches are of that board.
pub fn drive<R: Wait + Clock>(
    rt: &R,
    board: &Board,
    mut watches: Vec<Watch>,
    mut clients: Vec<Client>,
    serving: &Serving,
) -> (Vec<Client>, bool)
    requires { All (WatchOf board.now) watches.items }
    ensures { AreSameClients clients.items result.0.items }
{
    let mut rest = SHORTEST_REST;
    let mut lull = Lull::new(rt, serving);
    for _round in rt.forever() {
        if call_all(&mut clients) {
            rest = SHORTEST_REST;
            lull = Lull::new(rt, serving);
            continue;
        }
        if lull.has_ended(rt, serving) || clients.iter().all(|client| client.is_done()) {
            break;
        }
        thread::sleep(rt, Duration::from_micros(rest));
        rest = rest.saturating_mul(2).min(LONGEST_REST);
    }
    if let Some(mut watch) = watches.pop() {
        board.ask_shut(&mut watch);
    }
    (clients, lull.is_long())
}
