//! A conversation with the program, as a row says it.
ghost use Rattle.std.specs.Prelude.{◌≡◌, ◌≤◌, false, length, is_some, All};
ghost use Rattle.cd_tree.specs.Tree.{IsSound};
ghost use Rattle.cd_legal.specs.declared.limits.TheConstants.{MAX_LANES};

use crate::ending::{Shown, text_of};
use crate::laning::{lanes_of, meeting_of, numbers_of, pieces};
use crate::meeting::{Happened, Meeting};
use crate::opening::{MeetingFixtures, WaitingOpening};
use crate::resting::RestingLane;
use cd_outside::{MemoryFixtures, MemorySink, MemorySource};
use cd_program::caddy_main;
use cd_rows::{Outcome, RowFault, bytes_at, find, has, is_true, needed, number_of, only};
use cd_text::{List, Octets, Text};
use cd_tree::{Tree, print};
use std::alloc::Global;
use std::sync::{Arc, Wait};
use std::thread::Threads;

// The configuration of a row that names none. It is that of examples/hello.json, without its `admin`.
const HELLO: &str =
    r#"{"apps":{"http":{"servers":{"s":{"listen":[":8080"],"routes":[{"handle":[{"handler":"static_response","body":"hi"}]}]}}}}}"#;

// The words of a row that has none.
const WORDS: [&str; 3] = ["stdio", "--config", "hello.json"];

/// What a conversation with the program comes to.
pub fn conversation_outcome<R: Threads + Wait + Sync>(
    rt: &R,
    alloc: Global,
    row: &Tree,
) -> Result<Outcome, RowFault>
    requires { IsSound row.now }
{
    only(
        alloc,
        row,
        "asked calls configuration configuration_bytes connections ends fails keeps lanes meet opening pieces rests sizes words",
    )?;
    Ok(Outcome {
        member: "ends",
        bytes: ended_in_pieces(rt, alloc, row)?,
    })
}

// How the program ends where what is asked comes in pieces of each size that the row names, or, where it names none, whole and
// byte by byte. It has to end in the same way.
fn ended_in_pieces<R: Threads + Wait + Sync>(
    rt: &R,
    alloc: Global,
    row: &Tree,
) -> Result<Octets, RowFault>
    requires { IsSound row.now }
{
    let Some(sizes) = find(row, "sizes") else {
        let whole = ended(rt, alloc, row, usize::MAX)?;
        return same(whole, ended(rt, alloc, row, 1)?);
    };
    let Tree::Items(sizes) = sizes else {
        return Err(RowFault::Malformed("sizes that are no list"));
    };
    let [first, others @ ..] = sizes.as_slice() else {
        return Err(RowFault::Malformed("no size"));
    };
    let mut text = ended(rt, alloc, row, usize::from(number_of(first)?))?;
    for size in others {
        text = same(text, ended(rt, alloc, row, usize::from(number_of(size)?))?)?;
    }
    Ok(text)
}

// The text of both, or what shows that they differ.
fn same(mut one: Octets, other: Octets) -> Result<Octets, RowFault> {
    if !one.equals(other.as_slice()) {
        one.append(b"\n== and in other pieces\n")?;
        one.append(other.as_slice())?;
    }
    Ok(one)
}

// How the program ends where what is asked comes in pieces of this size.
fn ended<R: Threads + Wait + Sync>(
    rt: &R,
    alloc: Global,
    row: &Tree,
    size: usize,
) -> Result<Octets, RowFault>
    requires { IsSound row.now }
{
    let shown = shown_of(row)?;
    let words = words_of(alloc, row)?;
    let config = source_of(alloc, row)?;
    let out = MemorySink::new(alloc, failing(alloc, row, "output")?);
    let happened = Happened::new(alloc)?;
    let fixtures = fixtures_of(alloc, row, &happened)?;
    let lanes = lanes_of(alloc, row, size, &happened)?;
    ended_over(rt, alloc, words, config, out, fixtures, lanes, shown)
}

fn shown_of(row: &Tree) -> Result<Shown, RowFault> {
    Ok(Shown {
        rests: is_true(row, "rests")?,
        calls: is_true(row, "calls")?,
        lanes: has(row, "lanes"),
        keeps: is_true(row, "keeps")?,
    })
}

// How the program ends over all that it is handed. All of it is made before, so that nothing is let go of on the way.
fn ended_over<R: Threads + Wait + Sync>(
    rt: &R,
    alloc: Global,
    words: List<Text>,
    mut config: MemorySource,
    mut out: MemorySink,
    fixtures: MeetingFixtures,
    lanes: List<RestingLane>,
    shown: Shown,
) -> Result<Octets, RowFault>
    requires some { 1 ≤ length lanes }
    requires few { length lanes ≤ MAX_LANES }
    requires idle { All (λ lane. is_some lane.lane.current ≡ false) lanes }
{
    let ended = caddy_main(
        rt,
        alloc,
        words.as_slice(),
        &mut config,
        &mut out,
        fixtures,
        lanes,
    );
    text_of(alloc, &ended, &out, shown)
}

fn fixtures_of(
    alloc: Global,
    row: &Tree,
    happened: &Happened,
) -> Result<MeetingFixtures, RowFault> {
    let fixtures = MemoryFixtures::new(alloc, failing(alloc, row, "fixtures")?)?;
    Ok(MeetingFixtures::new(
        fixtures,
        Meeting::at(Arc::try_clone(&happened.openings)?, 1, 0),
        Meeting::at(Arc::try_clone(&happened.closings)?, 1, 0),
        waiting_opening(alloc, row, happened)?,
    ))
}

// The opening that waits until so many answers were given, if the row has one.
fn waiting_opening(
    alloc: Global,
    row: &Tree,
    happened: &Happened,
) -> Result<Option<WaitingOpening>, RowFault> {
    let Some(opening) = find(row, "opening") else {
        return Ok(None);
    };
    only(alloc, opening, "answers number within")?;
    let answers = usize::from(number_of(needed(alloc, opening, "answers")?)?);
    let number = u64::from(number_of(needed(alloc, opening, "number")?)?);
    match meeting_of(opening, "within", &happened.answers, answers)? {
        None => Err(RowFault::Malformed("an opening that waits without a limit")),
        Some(meeting) => Ok(Some(WaitingOpening { number, meeting })),
    }
}

fn words_of(alloc: Global, row: &Tree) -> Result<List<Text>, RowFault> {
    let mut words = List::new(alloc);
    match find(row, "words") {
        None => {
            for word in WORDS {
                words.push(Text::from_str(alloc, word)?)?;
            }
        }
        Some(Tree::Items(texts)) => {
            for text in texts.as_slice() {
                words.push(word_of(alloc, text)?)?;
            }
        }
        Some(_) => return Err(RowFault::Malformed("words that are no list")),
    }
    Ok(words)
}

fn word_of(alloc: Global, text: &Tree) -> Result<Text, RowFault> {
    match text {
        Tree::Text(text) => Ok(text.copy(alloc)?),
        _ => Err(RowFault::Malformed("a word that is no text")),
    }
}

fn source_of(alloc: Global, row: &Tree) -> Result<MemorySource, RowFault>
    requires { IsSound row.now }
{
    let bytes = configuration_of(alloc, row)?;
    let pieces = pieces(alloc, bytes.as_slice(), 100_000)?;
    Ok(MemorySource::new(pieces, failing(alloc, row, "configuration")?))
}

fn configuration_of(alloc: Global, row: &Tree) -> Result<Octets, RowFault>
    requires { IsSound row.now }
{
    if has(row, "configuration_bytes") {
        return bytes_at(alloc, row, "configuration_bytes");
    }
    if has(row, "configuration") {
        let text = print(alloc, needed(alloc, row, "configuration")?)?;
        return Ok(Octets::from_slice(alloc, text.as_str().as_bytes())?);
    }
    Ok(Octets::from_slice(alloc, HELLO.as_bytes())?)
}

// The numbers of the calls that fail of this part of the outside.
pub(crate) fn failing(alloc: Global, row: &Tree, part: &str) -> Result<List<u64>, RowFault> {
    let Some(parts) = find(row, "fails") else {
        return Ok(List::new(alloc));
    };
    only(alloc, parts, "configuration fixtures keeps lane output")?;
    match find(parts, part) {
        None => Ok(List::new(alloc)),
        Some(Tree::Items(numbers)) => numbers_of(alloc, numbers.as_slice()),
        Some(_) => Err(RowFault::Malformed("calls that are no list")),
    }
}
