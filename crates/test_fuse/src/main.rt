//! Tests of the records of FUSE: requests that Linux sent, as they are read, also cut short and
//! with other bytes behind them; and the bytes of answers. What must be printed was made from the
//! structs of `linux/fuse.h`.
#![tactic(auto)]

mod answers;
mod requests;

use crate::answers::print_answers;
use crate::requests::print_requests;

fn main(rt: HostRuntime) -> anyhow::Result<()> {
    print_requests(&rt)?;
    print_answers(&rt)
}
