// Requests in their bytes.
use fuse::{HEADER_SIZE, read_header, read_request};
use std::fs;

/// Each request of the file `requests`, whose lines have the digits of its bytes: as it is read,
/// and without its last byte.
pub fn print_requests(rt: &HostRuntime) -> anyhow::Result<()> {
    let text = fs::read_to_string(rt, "requests")?;
    for line in text.lines() {
        let bytes = hex::decode(rt.alloc(), line)?;
        println!(rt; "")?;
        print_request(rt, bytes.as_slice())?;
        print_shorter(rt, bytes.as_slice())?;
    }
    Ok(())
}

// A request, and where it is none.
fn print_request(rt: &impl Print, bytes: &[u8]) -> anyhow::Result<()> {
    let Some(header) = read_header(bytes) else {
        println!(rt; "{} bytes: no header", bytes.len())?;
        return Ok(());
    };
    let asked = read_request(header.opcode, behind_header(bytes));
    println!(rt;
        "{} of {} about {}",
        header.unique, header.length, header.node
    )?;
    println!(rt; "{} {asked:?}", header.opcode)?;
    Ok(())
}

// What stands behind the header.
fn behind_header(bytes: &[u8]) -> &[u8] {
    &bytes[HEADER_SIZE.min(bytes.len())..]
}

// The same without its last byte.
fn print_shorter(rt: &impl Print, bytes: &[u8]) -> anyhow::Result<()> {
    let bytes = &bytes[..bytes.len().max(1) - 1];
    match read_header(bytes) {
        Some(header) => {
            let asked = read_request(header.opcode, behind_header(bytes));
            println!(rt; "one byte shorter: {asked:?}")?;
        }
        None => println!(rt; "one byte shorter: no header")?,
    }
    Ok(())
}
