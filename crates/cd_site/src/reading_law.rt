ghost use Rattle.std.specs.Prelude.{◌≡◌, ℕ, List, true, false, Ok};
ghost use Rattle.cd_tree.specs.declared.path.Path.{Path};
ghost use Rattle.cd_routes.specs.Reading.{routes};
ghost use Rattle.cd_routes.specs.declared.named.KnownName.{KnownName};
ghost use Rattle.cd_routes.specs.declared.route.Route.{Route};
ghost use Rattle.cd_caddyfile.specs.Shape.{list};
ghost use Rattle.cd_caddyfile.specs.Shape as shape;
ghost use Rattle.cd_caddyfile.specs.Sites.{Site};
ghost use Rattle.cd_site.specs.Settings.{group_name, site_routes};
ghost use Rattle.cd_site.specs.Variables.{have_plain_variables};
ghost use Rattle.cd_site.specs.Ids.{HasFitIds};

/// The routes of sites, where they are read from a tree without false ids.
pub fn routes_of_sites_are_read()
    ensures { (known : List KnownName) (sites : List Site) (n : ℕ) (at : Path) (read : List Route)
        → have_plain_variables sites ≡ true → HasFitIds (list (shape.site_routes sites n)) at
        → routes known (list (shape.site_routes sites n)) at ≡ Ok read → read ≡ site_routes group_name sites n }
{}
