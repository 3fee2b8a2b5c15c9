// Laws of a mount, each the contract of a function that does nothing.
ghost use Rattle.mounting.specs.Sessions.{SessionsKeep};

use blocks::Disk;

/// The theorem of sessions, for files: of requests that were served one after the other, whatever a stop
/// leaves, recovery gives a sound image whose files are a tree with right counts. They are those on the
/// disk before the first request, after whole transactions that a beginning of the requests may make, in
/// their order. What `Server::serve` ensures of each request is all that it asks for.
pub fn session_theorem<D: Disk>()
    ensures { SessionsKeep D.Disk }
{}
