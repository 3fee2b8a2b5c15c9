// Calls of all clients in turn.
ghost use Rattle.clients.specs.Clients.{AreSameClients, AreCalled};

use crate::client::Client;

/// Calls each of the clients. By its code it answers whether any of them handed an operation in or
/// got an answer.
pub fn call_all(clients: &mut [Client]) -> bool
    ensures same { AreSameClients clients.old clients.new }
    ensures called { AreCalled clients.new }
{
    let mut moved = false;
    for client in clients.iter_mut() {
        moved |= client.call();
    }
    moved
}
