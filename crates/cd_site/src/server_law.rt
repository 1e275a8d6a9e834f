ghost use Rattle.std.specs.Prelude.{◌≡◌, ℕ, ◌+◌, ◌≤◌, ◌^◌, List, None};
ghost use Rattle.cd_wire.specs.declared.request.Request.{Request};
ghost use Rattle.cd_routes.specs.Serving.{server_answer};
ghost use Rattle.cd_routes.specs.declared.server.Server.{Server};
ghost use Rattle.cd_caddyfile.specs.Shape.{sites_at};
ghost use Rattle.cd_caddyfile.specs.Sites.{Site};
ghost use Rattle.cd_site.specs.Answering.{site_answer};
ghost use Rattle.cd_site.specs.Settings.{group_name, site_routes, all_groups};

/// A server with the routes of the sites of a port, as settings, and without error routes answers as the sites do. The groups
/// are named by `group` and their number, and the first one may have any number.
pub fn sites_mean_their_routes()
    ensures { (sites : List Site) (port n : ℕ) (server : Server) (q : Request)
        → n + all_groups (sites_at port sites) ≤ 2 ^ 64
        → server.routes ≡ site_routes group_name (sites_at port sites) n → server.errors ≡ None
        → server_answer server q ≡ site_answer sites port q }
{}
