// Lists the records of a packed file, standard input, in words.
#![tactic(auto)]

use listing::walk::{summarise, write_lines};
use std::io::Read;

fn main(rt: HostRuntime) -> anyhow::Result<()> {
    let mut bytes = Vec::new(rt.alloc());
    rt.stdin().read_to_end(&mut bytes)?;
    let mut lines = String::new(rt.alloc());
    let summary = summarise(bytes.as_slice());
    write_lines(bytes.as_slice(), summary.records, &mut lines)?;
    print!(rt; "{lines}{summary}\n")?;
    Ok(())
}
