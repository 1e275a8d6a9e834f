//! The images that a crash in some saves may leave.
//!
//! A saver writes one range between two syncs. So a crash leaves what was synced last, where that range may hold any bytes, and so may
//! what is past the old end; and the file ends anywhere from the old end to the new one. Of a range of one byte each byte is tried. Of a
//! longer one the write is cut after each of its bytes, from the front and from the back, with old bytes or others in the rest. Each
//! is tried with each end in the range and with the old one, and with two kinds of bytes past the old end. Each image is opened: it
//! has to give the text of the save that was being done, or of the one before.
ghost use Rattle.std.specs.Prelude.{IfSome};
ghost use Rattle.cd_tree.specs.Tree.{IsSound};

use crate::file::file_in;
use crate::saving::{Save, saved, saves_of};
use cd_autosave::{DiskCall, MemoryDisk, Saver};
use cd_outside::Given;
use cd_rows::{Outcome, RowFault, says};
use cd_text::{List, NoMemory, Octets, rest_from};
use cd_tree::{Tree, print};
use std::alloc::Global;
use std::mem;

/// How many images were opened, where each gave what it may.
pub fn images_found(alloc: Global, row: &Tree) -> Result<Outcome, RowFault> {
    let saves = saves_of(alloc, row, "crashes")?;
    let count = opened_images(alloc, saves.as_slice())?;
    let words = format!(in alloc; "{count} images")?;
    says(alloc, "found", words.as_str())
}

// Goes over the calls of these saves on an empty file.
fn opened_images(alloc: Global, saves: &[Save]) -> Result<u64, RowFault> {
    let mut crashes = Crashes {
        saves,
        done: 0,
        image: Vec::new(alloc),
        count: 0,
    };
    let mut seen: usize = 0;
    for count in 1..=saves.len() {
        let calls = calls_of(alloc, &saves[..count])?;
        for call in calls.as_slice().iter().skip(seen) {
            crashes.go_over(alloc, call)?;
        }
        seen = calls.len();
        crashes.done = count;
        crashes.look(alloc)?;
    }
    Ok(crashes.count)
}

// The writes and syncs of these saves on an empty file.
fn calls_of(alloc: Global, saves: &[Save]) -> Result<List<DiskCall>, RowFault> {
    let disk = MemoryDisk::new(alloc, Octets::new(alloc), List::new(alloc));
    match Saver::open(alloc, disk) {
        Err(_) => Err(RowFault::NoMemory),
        Ok((saver, _)) => {
            let mut saver = saver;
            let done = all_saved(&mut saver, saves);
            let MemoryDisk { calls, .. } = saver.close();
            done?;
            Ok(calls)
        }
    }
}

fn all_saved(saver: &mut Saver<MemoryDisk>, saves: &[Save]) -> Result<(), RowFault> {
    for save in saves {
        match saved(saver, save)? {
            Given::All => {}
            Given::Failed => return Err(RowFault::NoMemory),
        }
    }
    Ok(())
}

// The images so far.
#[derive(Drop)]
struct Crashes<'a> {
    saves: &'a [Save],
    // How many saves are done. The next one is being done.
    done: usize,
    // What the file holds.
    image: Vec<u8>,
    // How many images were opened.
    count: u64,
}

impl<'a> Crashes<'a> {
    // Opens the images that a crash in this call may leave, and does it.
    fn go_over(&mut self, alloc: Global, call: &DiskCall) -> Result<(), RowFault> {
        match call {
            DiskCall::Synced => self.look(alloc),
            DiskCall::Wrote(at, piece) => self.tear(alloc, *at as usize, piece.as_slice()),
        }
    }

    fn tear(&mut self, alloc: Global, at: usize, piece: &[u8]) -> Result<(), RowFault> {
        let old_end = self.image.len();
        let new_end = old_end.max(at.saturating_add(piece.len()));
        let old = range_of(alloc, self.image.as_slice(), at, piece.len())?;
        let fills: &[u8] = if new_end > old_end { &[0, 1] } else { &[0] };
        for fill in fills {
            self.image.resize(new_end, *fill)?;
            let torn = torn_pieces(alloc, self.image.as_slice(), at, piece)?;
            let least = old_end.max(at);
            for end in (least..=new_end).rev() {
                self.look_at_each(alloc, at, torn.as_slice(), end)?;
            }
            if old_end < at {
                self.look_at_each(alloc, at, torn.as_slice(), old_end)?;
            }
            put(self.image.as_mut_slice(), at, old.as_slice());
        }
        self.image.resize(new_end, 0)?;
        put(self.image.as_mut_slice(), at, piece);
        Ok(())
    }

    // Opens the file, cut at an end, with each of these in the range.
    fn look_at_each(
        &mut self,
        alloc: Global,
        at: usize,
        torn: &[Octets],
        end: usize,
    ) -> Result<(), RowFault> {
        self.image.truncate(end);
        if end <= at {
            return self.look(alloc);
        }
        for bytes in torn {
            put(self.image.as_mut_slice(), at, bytes.as_slice());
            self.look(alloc)?;
        }
        Ok(())
    }

    // Opens the file.
    fn look(&mut self, alloc: Global) -> Result<(), RowFault> {
        let image = mem::replace(&mut self.image, Vec::new(alloc));
        let disk = MemoryDisk::new(alloc, Octets::from_vec(image), List::new(alloc));
        let Ok((saver, tree)) = Saver::open(alloc, disk) else {
            return Err(RowFault::Malformed("an image that is damaged"));
        };
        let before = self
            .done
            .checked_sub(1)
            .and_then(|last| self.saves.get(last));
        let known = is_known(alloc, before, self.saves.get(self.done), &tree);
        self.image = file_in(saver.close()).into_vec();
        self.count = self.count.saturating_add(1);
        if known? {
            Ok(())
        } else {
            Err(RowFault::Malformed("an image of what was not saved"))
        }
    }
}

// Whether this is the text of the save that is being done, or of the one before, or nothing where there was none.
fn is_known(
    alloc: Global,
    before: Option<&Save>,
    now: Option<&Save>,
    tree: &Option<Tree>,
) -> Result<bool, NoMemory>
    requires { IfSome tree.now IsSound }
{
    match tree {
        None => Ok(before.is_none()),
        Some(tree) => {
            let text = print(alloc, tree)?;
            let bytes = text.as_str().as_bytes();
            Ok(has_text(before, bytes) || has_text(now, bytes))
        }
    }
}

fn has_text(save: Option<&Save>, bytes: &[u8]) -> bool {
    match save {
        Some(save) => save.text.equals(bytes),
        None => false,
    }
}

// The bytes of a range, as far as there are any.
fn range_of(alloc: Global, image: &[u8], at: usize, count: usize) -> Result<Octets, NoMemory> {
    Octets::from_slice(alloc, front(rest_from(image, at), count))
}

fn front(bytes: &[u8], count: usize) -> &[u8] {
    &bytes[..count.min(bytes.len())]
}

// What a range may hold after a write of the piece was torn.
fn torn_pieces(
    alloc: Global,
    image: &[u8],
    at: usize,
    piece: &[u8],
) -> Result<List<Octets>, NoMemory> {
    let mut torn = List::new(alloc);
    if piece.len() == 1 {
        for byte in 0..=255u8 {
            torn.push(Octets::from_slice(alloc, &[byte])?)?;
        }
        return Ok(torn);
    }
    let old = range_of(alloc, image, at, piece.len())?;
    let old = old.as_slice();
    let ones = filled(alloc, 1, piece.len())?;
    let highs = filled(alloc, 255, piece.len())?;
    for cut in 0..=piece.len() {
        torn.push(joined(alloc, front(piece, cut), rest_from(old, cut))?)?;
        torn.push(joined(alloc, front(old, cut), rest_from(piece, cut))?)?;
        torn.push(joined(alloc, front(piece, cut), rest_from(ones.as_slice(), cut))?)?;
        torn.push(joined(alloc, front(piece, cut), rest_from(highs.as_slice(), cut))?)?;
    }
    Ok(torn)
}

fn filled(alloc: Global, byte: u8, count: usize) -> Result<Vec<u8>, NoMemory> {
    let mut bytes = Vec::new(alloc);
    bytes.resize(count, byte)?;
    Ok(bytes)
}

fn joined(alloc: Global, front: &[u8], rest: &[u8]) -> Result<Octets, NoMemory> {
    let mut bytes = Octets::from_slice(alloc, front)?;
    bytes.append(rest)?;
    Ok(bytes)
}

// Puts the bytes at a place, as far as the file goes.
fn put(image: &mut [u8], at: usize, bytes: &[u8]) {
    for (i, byte) in bytes.iter().enumerate() {
        if let Some(place) = image.get_mut(at.saturating_add(i)) {
            *place = *byte;
        }
    }
}
