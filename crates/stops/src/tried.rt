// The stops that were tried, and passed, as a picture has them.
ghost use Rattle.std.specs.Prelude.{◌≡◌, ◌++◌, ◌∷◌, [], OnOk};
ghost use Rattle.stops.specs.Tried.{at_of, tried_at};

use blocks::NoMemory;
use crash_check::Stop;
use pictures::{At, Column};

// Adds a stop with so many images.
pub fn add(tried: &mut Vec<Column>, stop: Stop, images: u64) -> Result<(), NoMemory>
    ensures { OnOk result (tried.new.items ≡ tried.old.items ++ tried_at stop images ∷ []) }
{
    let at = at_of(stop);
    tried.push(Column { at, images })?;
    Ok(())
}

/// Where a run is stopped, as a picture has it.
pub fn at_of(stop: Stop) -> At
    ensures { result ≡ at_of stop }
{
    match stop {
        Stop::End => At::End,
        Stop::Write(number) => At::Write(number),
        Stop::Sync(number) => At::Sync(number),
    }
}
