//! Who answers at an address of a compiled configuration.
ghost use Rattle.std.specs.Prelude.{◌≡◌, None, if◌then◌else◌};
ghost use Rattle.std.specs.List.{find, flat_map, list_any};
ghost use Rattle.std.specs.Option.{option_copied};
ghost use Rattle.cd_addr.specs.Addresses.{is_address};
ghost use Rattle.cd_module_set.specs.declared.target.Target.TheVariants as target;
ghost use Rattle.cd_standard.specs.Acting.{stdio_address};
ghost use Rattle.cd_standard.specs.Compiled.{admin_at, app_servers, echo_at, echoes_at, has_address};
ghost use Rattle.cd_standard.specs.Responders.{AreNumbers, IsNumber, Responds, server_numbered};

use crate::compiled::{Compiled, CompiledApp, CompiledServer};
use crate::judging::is_address;
use cd_module_set::{Responder, Target};
use cd_outside::Address;

impl Compiled {
    /// Who answers at an address, with the numbers of the server there. It takes no memory.
    pub fn responder_at(&self, at: &Address) -> Responder
        ensures { Responds self.now at.now result }
    {
        if self.admin_at(at) {
            return self.without_server(Target::Admin);
        }
        match server_of_apps(at, self.apps.as_slice()) {
            Some(responder) => responder,
            None => self.without_server(self.target_without_server(at)),
        }
    }

    // No app has the number of all apps.
    fn without_server(&self, target: Target) -> Responder
        ensures target { result.target ≡ target }
        ensures server { server_numbered self.now.apps result.app result.server ≡ None }
    {
        Responder {
            target,
            app: self.apps.len(),
            server: 0,
        }
    }

    fn target_without_server(&self, at: &Address) -> Target
        ensures { result ≡ (if echo_at self.now at.now then target.App else target.Nobody) }
    {
        if any_echoes_at(at, self.apps.as_slice()) {
            Target::App
        } else {
            Target::Nobody
        }
    }

    /// Whether the admin API listens at an address. It takes no memory.
    pub fn admin_at(&self, at: &Address) -> bool
        ensures { result ≡ admin_at self.now at.now }
    {
        !self.admin.disabled && is_address(at, &self.admin.listen)
    }

    /// The server with a responder's numbers, if it is one. It takes no memory.
    pub fn server_of(&self, responder: Responder) -> Option<&CompiledServer>
        ensures { option_copied result ≡ server_numbered self.now.apps responder.app responder.server }
    {
        match self.apps.get(responder.app)? {
            CompiledApp::Echo(_) => None,
            CompiledApp::Http(servers) => servers.get(responder.server),
        }
    }
}

fn any_echoes_at(at: &Address, apps: &[CompiledApp]) -> bool
    ensures { result ≡ list_any (echoes_at at.now) apps.now }
{
    for app in apps {
        if echoes_at(at, app) {
            return true;
        }
    }
    false
}

fn echoes_at(at: &Address, app: &CompiledApp) -> bool
    ensures { result ≡ echoes_at at.now app.now }
{
    match app {
        CompiledApp::Echo(echo) => echo.listen.contains(at),
        CompiledApp::Http(_) => false,
    }
}

// ---- servers

// The first server with the address, by the numbers of its app and of itself.
fn server_of_apps(at: &Address, apps: &[CompiledApp]) -> Option<Responder>
    ensures { AreNumbers apps.now (find (has_address at.now) (flat_map app_servers apps.now)) result }
{
    for (place, app) in apps.iter().enumerate() {
        if let Some(server) = server_of_app(at, app) {
            return Some(Responder {
                target: Target::App,
                app: place,
                server,
            });
        }
    }
    None
}

fn server_of_app(at: &Address, app: &CompiledApp) -> Option<usize>
    ensures { IsNumber (app_servers app.now) (find (has_address at.now) (app_servers app.now)) result }
{
    match app {
        CompiledApp::Echo(_) => None,
        CompiledApp::Http(servers) => first_with(at, servers.as_slice()),
    }
}

fn first_with(at: &Address, servers: &[CompiledServer]) -> Option<usize>
    ensures { IsNumber servers.now (find (has_address at.now) servers.now) result }
{
    for (place, server) in servers.iter().enumerate() {
        if has_address(at, server) {
            return Some(place);
        }
    }
    None
}

fn has_address(at: &Address, server: &CompiledServer) -> bool
    ensures { result ≡ has_address at.now server.now }
{
    is_stdio(at) || server.listen.contains(at)
}

fn is_stdio(at: &Address) -> bool
    ensures { result ≡ is_address at.now stdio_address }
{
    at.host.equals("stdio") && at.port == 0
}
