//! The connections of a storm.
ghost use Rattle.std.specs.Prelude.{◌≡◌, ◌<◌, ◌≤◌, ◌+◌, ◌*◌, ◌++◌, IfOk, OnOk};
ghost use Rattle.cd_storm.specs.declared.limits.TheConstants.{STEPS};
ghost use Rattle.cd_storm.specs.Draws.{drawn, route_count};
ghost use Rattle.cd_storm.specs.Scripts.{quoted, variable, put_line, admin_fields, put_request, get_request, connection, step_calls, lane_script};

use crate::draws::Draws;
use crate::limits::{ADMIN_PORT, SERVER_PORT, STEPS};
use crate::routes::route_count;
use cd_outside::{Address, Call};
use cd_text::{List, NoMemory, Octets, Text};
use std::alloc::Global;

/// The script of a lane. A value is drawn for each step.
pub fn lane_script(
    alloc: Global,
    number: u64,
    lane: u64,
    draws: &mut Draws,
) -> Result<List<Call>, NoMemory>
    requires { draws.old.last ≡ drawn number (route_count number + STEPS * lane) }
    ensures script { IfOk result (λ made. made ≡ lane_script number lane) }
    ensures last { OnOk result (draws.new.last ≡ drawn number (route_count number + STEPS * (lane + 1))) }
{
    let routes = route_count(number);
    let mut calls = List::new(alloc);
    for step in 0..STEPS {
        let value = draws.draw();
        add_step(alloc, &mut calls, routes, lane, step, value)?;
    }
    Ok(calls)
}

fn add_step(
    alloc: Global,
    calls: &mut List<Call>,
    routes: u64,
    lane: u64,
    step: u64,
    value: u64,
) -> Result<(), NoMemory>
    requires { 0 < routes }
    ensures { OnOk result (calls.new ≡ calls.old ++ step_calls routes lane step value) }
{
    let change = put_request(alloc, lane, step, value)?;
    calls.push(connection(alloc, "localhost", ADMIN_PORT, &change)?)?;
    let request = get_request(alloc, routes, value)?;
    calls.push(connection(alloc, "", SERVER_PORT, &request)?)?;
    Ok(())
}

#[tactic(auto, unfolding(crate::specs::Scripts::put_request))]
fn put_request(alloc: Global, lane: u64, step: u64, value: u64) -> Result<Text, NoMemory>
    ensures { IfOk result (λ made. made ≡ put_request lane step value) }
{
    let name = variable(alloc, lane, step)?;
    let mut request = put_line(alloc, name.as_str())?.into_string();
    let body = quoted(alloc, value)?;
    request.push_str(admin_fields(alloc, body.len())?.as_str())?;
    request.push_str(body.as_str())?;
    Ok(Text::from_string(request))
}

#[tactic(auto, unfolding(crate::specs::Scripts::variable))]
fn variable(alloc: Global, lane: u64, step: u64) -> Result<Text, NoMemory>
    ensures { IfOk result (λ made. made ≡ variable lane step) }
{
    Ok(Text::from_string(format!(in alloc; "v{lane}_{step}")?))
}

#[tactic(auto, unfolding(crate::specs::Scripts::put_line))]
fn put_line(alloc: Global, name: &str) -> Result<Text, NoMemory>
    ensures { IfOk result (λ made. made ≡ put_line name.now) }
{
    Ok(Text::from_string(format!(in alloc;
        "PUT /config/apps/http/servers/srv0/routes/0/handle/0/{name} HTTP/1.1\r\n"
    )?))
}

#[tactic(auto, unfolding(crate::specs::Scripts::admin_fields))]
fn admin_fields(alloc: Global, length: usize) -> Result<Text, NoMemory>
    ensures { IfOk result (λ made. made ≡ admin_fields length) }
{
    Ok(Text::from_string(format!(in alloc;
        "Host: localhost:2019\r\nContent-Length: {length}\r\n\r\n"
    )?))
}

fn quoted(alloc: Global, value: u64) -> Result<Text, NoMemory>
    ensures { IfOk result (λ made. made ≡ quoted value) }
{
    Ok(Text::from_string(format!(in alloc; "\"{value}\"")?))
}

#[tactic(auto, unfolding(crate::specs::Scripts::get_request))]
fn get_request(alloc: Global, routes: u64, value: u64) -> Result<Text, NoMemory>
    requires { 0 < routes }
    ensures { IfOk result (λ made. made ≡ get_request routes value) }
{
    let place = value % routes;
    Ok(Text::from_string(format!(in alloc; "GET /p{place} HTTP/1.1\r\nHost: s\r\n\r\n")?))
}

fn connection(alloc: Global, host: &str, port: u16, request: &Text) -> Result<Call, NoMemory>
    ensures { IfOk result (λ made. made ≡ connection host.now port request.now) }
{
    let host = Text::from_str(alloc, host)?;
    let mut pieces = List::new(alloc);
    pieces.push(Octets::from_slice(alloc, request.as_str().as_bytes())?)?;
    Ok(Call {
        address: Address { host, port },
        pieces,
    })
}
