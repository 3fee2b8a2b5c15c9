// One operation after the other: each call is whole, and a stop keeps all of it or nothing.
ghost use Rattle.std.specs.Prelude.{◌+◌, ◌≤◌, ◌^◌};
ghost use Rattle.calls.specs.Calls.{Rests, call_count};

use anyhow::bail;
use blocks::Disk;
use calls::{Sole, call};
use model::content::Content;
use model::types::{Op, Reply};

/// Makes a file with these bytes, and reads up to 100 of them back.
pub fn write_and_read<D: Disk>(kernel: &mut Sole<D>, bytes: Content) -> anyhow::Result<Content>
    requires rests { Rests D.fault_count kernel.old }
    requires few { call_count kernel.old + 3 ≤ 2 ^ 63 }
{
    let Reply::Made(number) = call(kernel, Op::Create(2))? else {
        bail!("each number is taken");
    };
    let _wrote = call(kernel, Op::Write(number, 0, bytes))?;
    match call(kernel, Op::Read(number, 0, 100))? {
        Reply::Bytes(read) => Ok(read),
        reply => bail!("nothing was read: {reply:?}"),
    }
}
