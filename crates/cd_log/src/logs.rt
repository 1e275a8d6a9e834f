ghost use Rattle.std.specs.Prelude.{◌≡◌, ◌++◌, [], IfOk, OnOk};
ghost use Rattle.cd_log.specs.Lines.{access_lines, lines_of};
ghost use Rattle.cd_log.specs.Logging.{logging, logs_by_name, logs_given, logs_or_none};

use crate::line::access_line;
use crate::log::Log;
use cd_module::{LoadFault, Settings, fields_of, object_by_name, optional};
use cd_module_set::Line;
use cd_text::{List, NoMemory, Text};
use cd_tree::{Place, Tree};
use cd_wire::{Answer, Request};
use std::alloc::Global;

/// The settings of logging (Caddy, JSON Config Structure, `logging`).
#[derive(Debug, Drop)]
pub struct Logs {
    /// By rising name.
    pub logs: List<Log>,
}

// An object of logs.
#[derive(Debug, Drop)]
struct LogsByName {
    logs: List<Log>,
}

impl Settings for LogsByName {
    ghost reader = { logs_by_name };

    #[tactic(auto, unfolding(crate::specs::Logging::logs_by_name))]
    fn read(alloc: Global, tree: &Tree, at: &Place<'_>) -> Result<LogsByName, LoadFault> {
        let logs = object_by_name::<Log>(alloc, tree, at)?;
        Ok(LogsByName { logs })
    }
}

fn logs_or_none(alloc: Global, given: Option<LogsByName>) -> List<Log>
    ensures { result ≡ logs_or_none given }
{
    match given {
        Some(found) => {
            let LogsByName { logs } = found;
            logs
        }
        None => List::new(alloc),
    }
}

impl Settings for Logs {
    ghost reader = { logging };

    #[tactic(auto, unfolding(crate::specs::Logging::logging))]
    fn read(alloc: Global, tree: &Tree, at: &Place<'_>) -> Result<Logs, LoadFault> {
        let fields = fields_of(alloc, tree, at, "logs")?;
        let logs = optional::<LogsByName>(alloc, &fields, at, "logs")?;
        Ok(Logs {
            logs: logs_or_none(alloc, logs),
        })
    }
}

impl Logs {
    /// No logs, which takes no memory.
    pub fn none(alloc: Global) -> Logs
        ensures { result.logs ≡ [] }
    {
        Logs {
            logs: List::new(alloc),
        }
    }

    /// What was said of logging, or else no logs.
    pub fn or_none(alloc: Global, given: Option<Logs>) -> Logs
        ensures { result ≡ logs_given given }
    {
        match given {
            Some(logs) => logs,
            None => Logs::none(alloc),
        }
    }

    /// The lines of an answer of the server of this name: one for each log that takes the lines of access logs, in the order of the
    /// logs' names. It takes no memory where none does.
    pub fn lines(
        &self,
        alloc: Global,
        server: &Text,
        request: &Request,
        answer: &Answer<'_>,
    ) -> Result<List<Line>, NoMemory>
        ensures { IfOk result (λ lines. lines ≡ access_lines self.now server.now request.now answer.now) }
    {
        let mut lines = List::new(alloc);
        for log in self.logs.as_slice() {
            add_line(alloc, log, server, request, answer, &mut lines)?;
        }
        Ok(lines)
    }
}

fn add_line(
    alloc: Global,
    log: &Log,
    server: &Text,
    request: &Request,
    answer: &Answer<'_>,
    lines: &mut List<Line>,
) -> Result<(), NoMemory>
    ensures { OnOk result (lines.new ≡ lines.old ++ lines_of server.now request.now answer.now log.now) }
{
    if !log.access {
        return Ok(());
    }
    lines.push(Line {
        key: log.writer.key(alloc)?,
        text: access_line(alloc, server, request, answer)?,
    })
}
