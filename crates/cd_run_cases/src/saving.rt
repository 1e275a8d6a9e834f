//! A step that saves.
ghost use Rattle.std.specs.Prelude.{IfSome};
ghost use Rattle.cd_tree.specs.Tree.{IsSound};

use cd_autosave::{MemoryDisk, SaveFault, Saver};
use cd_outside::{Given, MAX_KEPT_BYTES};
use cd_rows::{RowFault, bytes_of, find, number_of, only};
use cd_text::{List, NoMemory, Octets};
use cd_tree::{Tree, print};
use std::alloc::Global;

/// One save: a serial, and the text of a configuration.
#[derive(Drop)]
pub struct Save {
    pub serial: u32,
    pub text: Octets,
}

/// The saves that a member lists, each as a list of its serial and its text.
pub fn saves_of(alloc: Global, row: &Tree, name: &str) -> Result<List<Save>, RowFault> {
    let Some(Tree::Items(trees)) = find(row, name) else {
        return Err(RowFault::Malformed("saves that are no list"));
    };
    let mut saves = List::new(alloc);
    for tree in trees.as_slice() {
        saves.push(save_of(alloc, tree)?)?;
    }
    Ok(saves)
}

fn save_of(alloc: Global, tree: &Tree) -> Result<Save, RowFault> {
    let Tree::Items(parts) = tree else {
        return Err(RowFault::Malformed("a save that is no list"));
    };
    let [serial, text] = parts.as_slice() else {
        return Err(RowFault::Malformed("a save without its serial and its text"));
    };
    Ok(Save {
        serial: u32::from(number_of(serial)?),
        text: bytes_of(alloc, text)?,
    })
}

/// Opens a disk and saves there what the step says. It adds what came of it to the text.
pub fn save_on(
    alloc: Global,
    step: &Tree,
    disk: MemoryDisk,
    text: &mut Octets,
) -> Result<MemoryDisk, RowFault> {
    only(alloc, step, "fails saves stops")?;
    let saves = saves_of(alloc, step, "saves")?;
    match Saver::open(alloc, disk) {
        Err((disk, why)) => {
            text.append(words_of(why))?;
            Ok(disk)
        }
        Ok((saver, saved)) => {
            let mut saver = saver;
            let told = append_opened(alloc, text, &saved);
            let done = save_all(alloc, &mut saver, saves.as_slice(), text);
            let disk = saver.close();
            told?;
            done?;
            Ok(disk)
        }
    }
}

fn words_of(why: SaveFault) -> &'static [u8] {
    match why {
        SaveFault::Damaged => b"damaged\n",
        SaveFault::DiskFault => b"disk fault\n",
        SaveFault::NoMemory => b"out of memory\n",
    }
}

// Says what was saved last.
fn append_opened(alloc: Global, text: &mut Octets, saved: &Option<Tree>) -> Result<(), NoMemory>
    requires { IfSome saved.now IsSound }
{
    match saved {
        None => text.append(b"opened, nothing saved\n"),
        Some(tree) => {
            text.append(b"opened ")?;
            text.append(print(alloc, tree)?.as_str().as_bytes())?;
            text.push(b'\n')
        }
    }
}

// Saves, and says of each save whether it was done.
fn save_all(
    alloc: Global,
    saver: &mut Saver<MemoryDisk>,
    saves: &[Save],
    text: &mut Octets,
) -> Result<(), RowFault> {
    for save in saves {
        let serial = save.serial;
        let words = match saved(saver, save)? {
            Given::All => format!(in alloc; "saved {serial}\n")?,
            Given::Failed => format!(in alloc; "failed {serial}\n")?,
        };
        text.append(words.as_bytes())?;
    }
    Ok(())
}

/// What a saver answers to a save.
pub fn saved(saver: &mut Saver<MemoryDisk>, save: &Save) -> Result<Given, RowFault> {
    let text = save.text.as_slice();
    if text.len() > MAX_KEPT_BYTES {
        return Err(RowFault::Malformed("a text that is too long"));
    }
    Ok(saver.save(save.serial, text))
}
