//! The final head of a response, after the informational ones (RFC 9110, section 15.2).
ghost use Rattle.std.specs.Prelude.{◌≡◌, ◌≤◌, IfOk};
ghost use Rattle.cd_proxy.specs.Heads.{is_informational, is_final};
ghost use Rattle.cd_proxy.specs.Reading.{IsFinalRead};

use crate::head::{Head, HeadRead, read_head};
use cd_text::NoMemory;
use cd_wire::rest_from;
use std::alloc::Global;

/// What an input begins with, where a final head is to come.
#[derive(Drop)]
pub(crate) enum FinalRead {
    /// A final head, and the place after it.
    Whole(Head, usize),
    /// None yet. Up to this place there are informational heads, after which so many more may come.
    Partial(usize, usize),
    /// None, whatever follows.
    Hopeless,
}

fn is_informational(status: u16) -> bool
    ensures { result ≡ is_informational status }
{
    status >= 100 && status < 200 && status != 101
}

fn is_final(status: u16) -> bool
    ensures { result ≡ is_final status }
{
    status >= 200
}

/// The final head, after so many informational ones at most.
pub(crate) fn read_final(alloc: Global, input: &[u8], most: usize) -> Result<FinalRead, NoMemory>
    ensures { IfOk result (IsFinalRead most input.now) }
{
    let read = read_head(alloc, input)?;
    match read {
        HeadRead::Whole(head, len) => {
            if is_final(head.status) {
                return Ok(FinalRead::Whole(head, len));
            }
            if !is_informational(head.status) {
                return Ok(FinalRead::Hopeless);
            }
            if most == 0 {
                return Ok(FinalRead::Hopeless);
            }
            let after = read_final(alloc, rest_from(input, len), most - 1)?;
            match after {
                FinalRead::Whole(last, at) => Ok(FinalRead::Whole(last, len + at)),
                FinalRead::Partial(at, left) => Ok(FinalRead::Partial(len + at, left)),
                FinalRead::Hopeless => Ok(FinalRead::Hopeless),
            }
        }
        HeadRead::Partial => Ok(FinalRead::Partial(0, most)),
        HeadRead::Hopeless => Ok(FinalRead::Hopeless),
    }
}
