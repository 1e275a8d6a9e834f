ghost use Rattle.std.specs.Prelude.{◌≡◌, ◌++◌, filter, IfOk, OnOk};
ghost use Rattle.cd_path.specs.Members.{is_before, is_after, with_member};

use cd_text::{List, NoMemory, Text};
use cd_tree::{Member, Shared, Tree, copy_member};
use std::alloc::Global;
use std::cmp::Ordering;

/// Copies of the members, with this value at the key, or none there.
pub(crate) fn set_member(
    alloc: Global,
    members: &Shared<Member>,
    key: &Text,
    value: Option<Tree>,
) -> Result<List<Member>, NoMemory>
    ensures { IfOk result (λ made. made ≡ with_member key.now value members.now) }
{
    let members = members.as_slice();
    let mut made = List::new(alloc);
    append_before(alloc, &mut made, members, key)?;
    if let Some(value) = value {
        let key = key.copy(alloc)?;
        made.push(Member { key, value })?;
    }
    append_after(alloc, &mut made, members, key)?;
    Ok(made)
}

fn append_before(
    alloc: Global,
    made: &mut List<Member>,
    members: &[Member],
    key: &Text,
) -> Result<(), NoMemory>
    ensures { OnOk result (made.new ≡ made.old ++ filter (is_before key.now) members.now) }
{
    for member in members {
        if member.key.cmp(key) == Ordering::Less {
            made.push(copy_member(alloc, member)?)?;
        }
    }
    Ok(())
}

fn append_after(
    alloc: Global,
    made: &mut List<Member>,
    members: &[Member],
    key: &Text,
) -> Result<(), NoMemory>
    ensures { OnOk result (made.new ≡ made.old ++ filter (is_after key.now) members.now) }
{
    for member in members {
        if member.key.cmp(key) == Ordering::Greater {
            made.push(copy_member(alloc, member)?)?;
        }
    }
    Ok(())
}
