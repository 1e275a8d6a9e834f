//! Messages: when they are written, and what fixtures leave. They go to standard output, between the lines of the scenes.
use crate::device::{Busy, OnePort};
use cd_outside::{Address, Fixtures, Given, Key, Opened, Sink};
use cd_stdio::{AfterMessages, Announced, Console, MAX_LINE_BYTES, Messages};
use cd_text::{NoMemory, Text};
use std::alloc::Global;
use std::io::Stdout;
use std::sync::Wait;

/// Whether two messages wait in their order while their writer would have to wait, and a line that is too long is dropped.
pub fn messages_wait_for_their_writer<R: Wait + Print>(
    rt: &R,
    alloc: Global,
    out: Stdout,
) -> Result<bool, NoMemory> {
    let messages = Messages::new(alloc, Busy::new(2, out));
    messages.leave(rt, Text::from_str(alloc, "  the first message\n")?);
    let long = "x".repeat(alloc, MAX_LINE_BYTES)?;
    messages.leave(rt, Text::from_string(format!(in alloc; "{long}\n")?));
    messages.leave(rt, Text::from_str(alloc, "  the second message\n")?);
    messages.send(rt);
    messages.send(rt);
    let said = println!(rt; "  nothing was written so far").is_ok();
    messages.send(rt);
    messages.send(rt);
    Ok(said)
}

/// Whether fixtures leave a message for what they open and for what can't be opened, and write none themselves.
pub fn fixtures_leave_messages<R: Wait + Print>(
    rt: &R,
    alloc: Global,
    out: Stdout,
) -> Result<bool, NoMemory> {
    let messages = Messages::new(alloc, Busy::new(0, out));
    let mut fixtures = Announced::new(rt, alloc, OnePort::new(443), &messages);
    let opened = fixtures.open_key(&listen(alloc, "", 443)?) == Opened::Ready;
    let failed = fixtures.open_key(&listen(alloc, "::1", 80)?) == Opened::Failed;
    let writer = Key::Writer(Text::from_str(alloc, "file:lines.log")?);
    let unopened = fixtures.open_key(&writer) == Opened::Failed;
    let said = println!(rt; "  nothing was written so far").is_ok();
    messages.send(rt);
    Ok(opened && failed && unopened && said)
}

fn listen(alloc: Global, host: &str, port: u16) -> Result<Key, NoMemory> {
    Ok(Key::Listen(Address {
        host: Text::from_str(alloc, host)?,
        port,
    }))
}

/// Whether messages come before the program's next line.
pub fn a_line_comes_after_messages<R: Wait>(
    rt: &R,
    alloc: Global,
    out: Stdout,
) -> Result<bool, NoMemory> {
    let messages = Messages::new(alloc, Busy::new(0, out));
    let mut sink = AfterMessages::new(rt, Console::new(out), &messages);
    messages.leave(rt, Text::from_str(alloc, "  a message\n")?);
    Ok(sink.write(b"  a line of the program\n") == Given::All)
}

/// Whether the name of a log writer is shown with its control characters as escapes, and all else as it is.
pub fn a_name_is_shown<R: Wait>(rt: &R, alloc: Global, out: Stdout) -> Result<bool, NoMemory> {
    let messages = Messages::new(alloc, Busy::new(0, out));
    let mut fixtures = Announced::new(rt, alloc, OnePort::new(80), &messages);
    let name = "file:\u{1b}[31m \r\n\u{0}\u{7f}\u{9b} \\x1b é 漢 \u{a0}|";
    let writer = Key::Writer(Text::from_str(alloc, name)?);
    let unopened = fixtures.open_key(&writer) == Opened::Failed;
    messages.send(rt);
    Ok(unopened)
}
