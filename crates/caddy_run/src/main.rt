//! The program: it gives `caddy_main` of `cd_program`, or `caddy_saved` of `cd_saved`, the real forms of the outside.
//!
//! `run` serves the lanes of a reactor, over TCP, by the forms of `cd_tcp`, and saves in a file of the current folder, by those of
//! `cd_disk`. `reverse-proxy` relays what comes to such lanes, by `proxy_main` of `cd_reverse_proxy` (proxying.rt). `stdio` serves
//! standard input and output, by those of `cd_stdio`; words that serve nothing get the same lane, and it comes back untouched.
//! lanes.rt says how many lanes there are, words.rt reads the words and finds the file of the configuration, placed.rt says where
//! that stops being JSON, serving.rt calls `caddy_main`, and ending.rt says on standard error what has failed. Each lane reports
//! what its calls have answered (`Telling` of `cd_link`), so the contract of `caddy_main` speaks of that. No contract speaks of
//! what a stream, a socket or a file holds: tests/loopback looks at the program from outside.
#![tactic(auto)]

mod ending;
mod lanes;
mod placed;
mod proxying;
mod serving;
mod words;

use cd_disk::{AUTOSAVE_FILE, AutosaveFile, FileDisk, ReportingDisk};
use cd_link::Telling;
use cd_stdio::{AfterMessages, Announced, Console, Messages, StreamLane, Watched};
use cd_tcp::{Reactor, TcpFixtures};
use ending::{tell_cause, tell_cut};
use lanes::tcp_lanes;
use placed::Placed;
use proxying::{over_peers, tcp_peers};
use serving::{over_disk, over_streams};
use std::process::ExitCode;
use words::{begins_with, config_source, looks_for_json, words_of};

fn main(rt: HostRuntime) -> ExitCode {
    let alloc = rt.alloc();
    let Ok(words) = words_of(&rt, alloc) else {
        return ExitCode::from(5);
    };
    let words = words.as_slice();
    let mut config = Placed::new(alloc, config_source(&rt, words), looks_for_json(words));
    let status = if begins_with(words, "run") {
        let Ok(error) = Watched::new(&rt, alloc, rt.stderr()) else {
            return ExitCode::from(5);
        };
        let messages = Messages::new(alloc, error);
        let Ok(reactor) = Reactor::new(&rt, alloc, rt.stdout(), rt.stderr()) else {
            return ExitCode::from(5);
        };
        let Ok(lanes) = tcp_lanes(&rt, alloc, &reactor, &messages) else {
            return ExitCode::from(5);
        };
        let fixtures = TcpFixtures::new(&rt, alloc, &reactor);
        let fixtures = Announced::new(&rt, alloc, fixtures, &messages);
        let out = AfterMessages::new(&rt, Console::new(rt.stdout()), &messages);
        let file = FileDisk::new(AutosaveFile::new(&rt, AUTOSAVE_FILE));
        let disk = ReportingDisk::new(&rt, alloc, file, AUTOSAVE_FILE, &messages);
        let served = over_disk(&rt, alloc, words, &mut config, out, fixtures, lanes, disk);
        let cut = served.cut.saturating_add(reactor.cut(&rt));
        tell_cut(&rt, alloc, &messages, cut);
        tell_cause(alloc, &mut rt.stderr(), words, &config);
        Ok(served.status)
    } else if begins_with(words, "reverse-proxy") {
        let Ok(error) = Watched::new(&rt, alloc, rt.stderr()) else {
            return ExitCode::from(5);
        };
        let messages = Messages::new(alloc, error);
        let Ok(reactor) = Reactor::new(&rt, alloc, rt.stdout(), rt.stderr()) else {
            return ExitCode::from(5);
        };
        let Ok(lanes) = tcp_lanes(&rt, alloc, &reactor, &messages) else {
            return ExitCode::from(5);
        };
        let Ok(peers) = tcp_peers(&rt, alloc, &reactor) else {
            return ExitCode::from(5);
        };
        let fixtures = TcpFixtures::new(&rt, alloc, &reactor);
        let fixtures = Announced::new(&rt, alloc, fixtures, &messages);
        let out = AfterMessages::new(&rt, Console::new(rt.stdout()), &messages);
        let served = over_peers(&rt, alloc, words, out, fixtures, lanes, peers);
        let cut = served.cut.saturating_add(reactor.cut(&rt));
        tell_cut(&rt, alloc, &messages, cut);
        Ok(served.status)
    } else if begins_with(words, "stdio") {
        let lane = StreamLane::new(&rt, alloc, rt.stdin(), rt.stdout(), rt.stderr());
        let lane = Telling::new(alloc, lane);
        let out = Console::new(rt.stderr());
        over_streams(&rt, alloc, words, &mut config, out, lane)
    } else {
        let lane = StreamLane::new(&rt, alloc, rt.stdin(), rt.stdout(), rt.stderr());
        let lane = Telling::new(alloc, lane);
        let out = Console::new(rt.stdout());
        let status = over_streams(&rt, alloc, words, &mut config, out, lane);
        tell_cause(alloc, &mut rt.stderr(), words, &config);
        status
    };
    ExitCode::from(status.unwrap_or(5))
}
