use crate::give;
use cd_text::Text;
use std::alloc::Global;
use std::collections::VecDeque;
use std::io::Write;
use std::sync::atomic::{AtomicU64, Ordering};
use std::sync::{Mutex, Wait};

/// How many lines may wait to be written. Further ones are dropped.
pub const MAX_LINES: usize = 1_024;

/// How many bytes a line may have. A longer one is dropped. A pipe takes so many at once.
pub const MAX_LINE_BYTES: usize = 4_096;

/// A writer that says whether it takes a line at once.
pub trait TakesNow: Write {
    /// Whether a line of up to `MAX_LINE_BYTES` would be written without waiting for its reader.
    fn takes_now(&mut self) -> bool;
}

/// Lines for a writer whose reader may be slow, as that of standard error. A line is left here without waiting for the writer. It
/// is written, after those before it, by a call of `send`, which leaves it here where the writer would have to wait.
#[derive(Drop)]
pub struct Messages<W> {
    // How many lines wait.
    waiting: AtomicU64,
    lines: Mutex<VecDeque<Text>>,
    writer: Mutex<W>,
}

impl<W: TakesNow> Messages<W> {
    /// No line waits.
    pub fn new(alloc: Global, writer: W) -> Messages<W> {
        Messages {
            waiting: AtomicU64::new(0),
            lines: Mutex::new(VecDeque::new(alloc)),
            writer: Mutex::new(writer),
        }
    }

    /// Leaves a line, which ends in a line end. It is dropped where it is too long, where too many wait, and out of memory.
    pub fn leave<R: Wait>(&self, rt: &R, line: Text) {
        let mut lines = self.lines.lock(rt);
        if line.len() <= MAX_LINE_BYTES && lines.len() < MAX_LINES {
            let _ = lines.push_back(line);
        }
        self.waiting.store(lines.len() as u64, Ordering::SeqCst);
    }

    /// Writes the lines that wait, as far as the writer takes them at once. Where another thread is doing so, it does nothing.
    pub fn send<R: Wait>(&self, rt: &R) {
        if self.waiting.load(Ordering::SeqCst) == 0 {
            return;
        }
        let Some(mut writer) = self.writer.try_lock() else {
            return;
        };
        for _ in 0..MAX_LINES {
            if !writer.takes_now() {
                return;
            }
            let Some(line) = self.next(rt) else {
                return;
            };
            let _ = give(&mut *writer, line.as_str().as_bytes());
        }
    }

    fn next<R: Wait>(&self, rt: &R) -> Option<Text> {
        let mut lines = self.lines.lock(rt);
        let line = lines.pop_front();
        self.waiting.store(lines.len() as u64, Ordering::SeqCst);
        line
    }
}
