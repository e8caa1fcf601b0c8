// Journal images in files: `image_tool write FILE` writes an example, and `image_tool show FILE` shows the chains of an image with
// their authors, or says why the file is none.
#![tactic(auto)]

use anyhow::{Context, anyhow};
use calls::call::Call;
use image::copies::write_image;
use image::reading::read_image;
use journal::JournalStore;
use pool::pool::Pool;
use record::record::RECORD_SIZE;
use rules::range::RangeRule;
use runner::run::run;
use std::{env, fs};
use store::laying::LayOut;
use store::reading::ReadingStore;
use store::sizes::{MOST_DEPTH, MOST_ENTRIES};
use store::text::chain_text;

const SEATS: usize = 2;

const ENTRIES: usize = 2;

const DEPTH: usize = 3;

// More than the image of the example has.
const ROOM: usize = 256;

// What the largest journal wants.
const MOST_BYTES: usize = RECORD_SIZE * MOST_ENTRIES * MOST_DEPTH;

// Seat 0 sets both entries in one edit, and seat 1 then the first.
const CALLS: [Call; 16] = [
    Call::Begin { seat: 0 },
    Call::Write {
        seat: 0,
        entry: 0,
        value: 2_500_000,
    },
    Call::Write {
        seat: 0,
        entry: 1,
        value: -150_000,
    },
    Call::Prepare { seat: 0 },
    Call::Vote { seat: 0, entry: 0 },
    Call::Vote { seat: 0, entry: 1 },
    Call::Decide { seat: 0 },
    Call::Finish { seat: 0, entry: 0 },
    Call::Finish { seat: 0, entry: 1 },
    Call::Close { seat: 0 },
    Call::Begin { seat: 1 },
    Call::Write {
        seat: 1,
        entry: 0,
        value: 2_400_000,
    },
    Call::Prepare { seat: 1 },
    Call::Vote { seat: 1, entry: 0 },
    Call::Decide { seat: 1 },
    Call::Finish { seat: 1, entry: 0 },
];

fn main(rt: HostRuntime) -> anyhow::Result<()> {
    let mut words = env::args(&rt)?.skip(1);
    let (Some(task), Some(path)) = (words.next(), words.next()) else {
        return Err(anyhow!("usage: image_tool write FILE, or image_tool show FILE"));
    };
    match task.as_str() {
        "write" => write(&rt, path.as_str()),
        "show" => show(&rt, path.as_str()),
        _ => Err(anyhow!("there is write, and there is show")),
    }
}

// Makes the calls on a pool over a journal, and writes the image of what they leave.
fn write(rt: &HostRuntime, path: &str) -> anyhow::Result<()> {
    let mut journal = JournalStore::over(vec![in rt.alloc(); 0; RECORD_SIZE * ENTRIES * DEPTH]?);
    journal
        .lay_out(ENTRIES, DEPTH)
        .context("the journal could not be laid out")?;
    let mut pool = Pool::new(journal, RangeRule::new());
    run(rt.alloc(), &mut pool, SEATS, &CALLS)?;
    let mut image = [0; ROOM];
    let length = write_image(pool.store(), &mut image).context("the image could not be written")?;
    let written = image
        .get(..length)
        .context("the image is longer than its memory")?;
    fs::write(rt, path, written)?;
    println!(rt; "an image of {length} bytes")?;
    Ok(())
}

fn show(rt: &HostRuntime, path: &str) -> anyhow::Result<()> {
    let image = fs::read(rt, path)?;
    let mut journal = JournalStore::over(vec![in rt.alloc(); 0; MOST_BYTES]?);
    if let Err(refusal) = read_image(&mut journal, &image) {
        println!(rt; "refused {}: {refusal}", refusal.number())?;
        return Ok(());
    }
    for entry in 0..journal.entries() {
        let chain = chain_text(rt.alloc(), &journal, entry)?;
        print!(rt; "entry {entry}\n{chain}")?;
    }
    Ok(())
}
