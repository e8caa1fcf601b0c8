ghost use Rattle.std.specs.Prelude.{◌≡◌, Err, OnOk, OnErr};
ghost use Rattle.store.specs.declared.refusal.Refusal.TheVariants.{NoImage};
ghost use Rattle.image.specs.Images.{IsImage};
ghost use Rattle.image.specs.Contents.{HasContents, ReadsContents};
ghost use Rattle.image.specs.Copies.{ReadsImage, ReadsBack, RewritesImage, WritesImages};

use crate::copies::write_image;
use crate::image::{Contents, contents_of};
use journal::JournalStore;
use record::record::{RECORD_SIZE, Record};
use store::laying::LayOut;
use store::refusal::Refusal;
use store::writing::WritingStore;

/// Reads an image into a journal: it has the image's entries, depth and chains then, and nothing staged. Refused where the bytes
/// are no image, and then where the journal's memory is too short; the memory behind the records stays.
pub fn read_image(journal: &mut JournalStore, image: &[u8]) -> Result<(), Refusal>
    ensures image { ReadsImage journal.old image.now result journal.new }
    ensures back { ReadsBack journal.old image.now result journal.new }
    ensures found { OnOk result (IsImage image.now) }
    ensures other { (IsImage image.now → ⊥) → result ≡ Err NoImage }
    ensures refused { OnErr result (journal.new ≡ journal.old) }
{
    let contents = contents_of(image).ok_or(Refusal::NoImage)?;
    refill(journal, image, contents)
}

// Lays the journal out as the image says, and publishes each record behind the opening ones.
fn refill(journal: &mut JournalStore, image: &[u8], contents: Contents) -> Result<(), Refusal>
    requires { HasContents image.now contents }
    ensures reads { ReadsContents image.now contents journal.old result journal.new }
    ensures refused { OnErr result (journal.new ≡ journal.old) }
{
    let Contents {
        entries,
        depth,
        count,
    } = contents;
    journal.lay_out(entries, depth)?;
    for k in entries..count {
        let added = Record::read(image, RECORD_SIZE * k).ok_or(Refusal::NoImage)?;
        let entry = usize::from(added.entry);
        journal.stage(entry, added.version)?;
        journal.publish(entry)?;
    }
    Ok(())
}

/// Reads an image into a journal, and writes the journal's image: the same bytes. Refused where the bytes are no image, and then
/// where the journal or the memory to be written has too little room for it.
pub fn rewrite(journal: &mut JournalStore, image: &[u8], out: &mut [u8]) -> Result<usize, Refusal>
    ensures image { RewritesImage journal.old image.now out.old result journal.new out.new }
    ensures found { OnOk result (IsImage image.now) }
    ensures other { (IsImage image.now → ⊥) → result ≡ Err NoImage }
    ensures refused { OnErr result ((journal.new ≡ journal.old) × (out.new ≡ out.old)) }
{
    let has = contents_of(image).ok_or(Refusal::NoImage)?;
    if out.len() < image.len() {
        return Err(Refusal::MemoryTooShort);
    }
    refill(journal, image, has)?;
    write_image(journal, out)
}

/// What a journal that is laid out writes is the image of its records, which `read_image` reads again.
pub fn always_an_image()
    ensures { WritesImages }
{}
