//! The connections of a row.
use cd_link::{Link, MemoryStream};
use cd_outside::Address;
use cd_rows::{RowFault, bytes_at, bytes_of, find, number_of, only};
use cd_text::{List, NoMemory, Octets, Text};
use cd_tree::Tree;
use std::alloc::Global;

/// The connections of a row, as it lists them.
pub fn listed<'r>(row: &'r Tree) -> Result<&'r [Tree], RowFault> {
    match find(row, "links") {
        Some(Tree::Items(links)) => Ok(links.as_slice()),
        _ => Err(RowFault::Malformed("no list of links")),
    }
}

/// The address of each connection.
pub fn addresses_of(alloc: Global, trees: &[Tree]) -> Result<List<Address>, RowFault> {
    let mut addresses = List::new(alloc);
    for tree in trees {
        let host = match find(tree, "host") {
            None => "stdio",
            Some(Tree::Text(host)) => host.as_str(),
            Some(_) => return Err(RowFault::Malformed("a host that is no text")),
        };
        addresses.push(Address {
            host: Text::from_str(alloc, host)?,
            port: number_at(tree, "port", 0)?,
        })?;
    }
    Ok(addresses)
}

/// The connections, none of which a lane had yet.
pub fn links_of(alloc: Global, trees: &[Tree]) -> Result<List<Link<MemoryStream>>, RowFault> {
    let mut links = List::new(alloc);
    for (number, tree) in trees.iter().enumerate() {
        only(
            alloc,
            tree,
            "answers asked cut failing half host later most pieces port size stops",
        )?;
        links.push(Link::new(alloc, stream_of(alloc, tree, number)?))?;
    }
    Ok(links)
}

fn stream_of(alloc: Global, tree: &Tree, number: usize) -> Result<MemoryStream, RowFault> {
    Ok(MemoryStream::new(
        alloc,
        number,
        pieces_of(alloc, tree)?,
        numbers_at(alloc, tree, "failing")?,
        numbers_at(alloc, tree, "later")?,
        u64::from(number_at(tree, "stops", u16::MAX)?),
        usize::from(number_at(tree, "most", u16::MAX)?),
    ))
}

// What comes on it: its pieces as the row has them, or its bytes in pieces of a size.
fn pieces_of(alloc: Global, tree: &Tree) -> Result<List<Octets>, RowFault> {
    match find(tree, "pieces") {
        None => {
            let size = usize::from(number_at(tree, "size", u16::MAX)?);
            let bytes = bytes_at(alloc, tree, "asked")?;
            Ok(in_pieces(alloc, bytes.as_slice(), size)?)
        }
        Some(Tree::Items(trees)) => {
            let mut pieces = List::new(alloc);
            for piece in trees.as_slice() {
                pieces.push(bytes_of(alloc, piece)?)?;
            }
            Ok(pieces)
        }
        Some(_) => Err(RowFault::Malformed("pieces that are no list")),
    }
}

fn in_pieces(alloc: Global, bytes: &[u8], size: usize) -> Result<List<Octets>, NoMemory> {
    let mut pieces = List::new(alloc);
    for piece in bytes.chunks(size.max(1)) {
        pieces.push(Octets::from_slice(alloc, piece)?)?;
    }
    Ok(pieces)
}

/// The number that a member is, or this one where there is none.
pub fn number_at(tree: &Tree, name: &str, usual: u16) -> Result<u16, RowFault> {
    match find(tree, name) {
        None => Ok(usual),
        Some(number) => number_of(number),
    }
}

fn numbers_at(alloc: Global, tree: &Tree, name: &str) -> Result<List<u64>, RowFault> {
    let mut numbers = List::new(alloc);
    match find(tree, name) {
        None => {}
        Some(Tree::Items(trees)) => {
            for number in trees.as_slice() {
                numbers.push(u64::from(number_of(number)?))?;
            }
        }
        Some(_) => return Err(RowFault::Malformed("numbers that are no list")),
    }
    Ok(numbers)
}
