// Reads a session file, from the file that is named on the command line or from standard input, makes its calls on a pool over a
// table store, and prints what each line answered.
#![tactic(auto)]

use session_file::session::LONGEST_FILE;
use session_run::session::session_text;
use std::io::{BufRead, Read};
use std::{env, fs};

// One byte more than a session file may have: what follows makes no difference.
const ENOUGH: u64 = LONGEST_FILE as u64 + 1;

fn main(rt: HostRuntime) -> anyhow::Result<()> {
    let mut file = Vec::new(rt.alloc());
    match env::args(&rt)?.nth(1) {
        Some(path) => fs::open(&rt, path.as_str())?
            .take(ENOUGH)
            .read_to_end(&mut file)?,
        None => rt.reader().take(ENOUGH).read_to_end(&mut file)?,
    };
    print!(rt; "{}", session_text(rt.alloc(), &file)?)?;
    Ok(())
}
