// Runs each session file of data/, and says whether it prints what the file beside it has. These are session files to read.
#![tactic(auto)]

use session_run::session::session_text;
use std::fs;

const NAMES: [&str; 16] = [
    "worked",
    "blocked",
    "readers",
    "full_chain",
    "too_far",
    "wrong_calls",
    "no_word",
    "no_number",
    "far_number",
    "long_line",
    "unended_line",
    "one_line",
    "empty",
    "no_such_size",
    "no_room",
    "no_such_seats",
];

fn main(rt: HostRuntime) -> anyhow::Result<()> {
    for name in NAMES {
        let session = fs::read(&rt, format!(in rt.alloc(); "{name}.session")?.as_str())?;
        let wanted = fs::read_to_string(&rt, format!(in rt.alloc(); "{name}.out")?.as_str())?;
        let text = session_text(rt.alloc(), &session)?;
        if text.as_str() == wanted.as_str() {
            println!(rt; "{name}: as it should be")?;
        } else {
            println!(rt; "{name}: differs\n{text}")?;
        }
    }
    Ok(())
}
