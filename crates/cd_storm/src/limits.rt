/// The fewest routes that a storm draws a body for.
pub const LEAST_ROUTES: u64 = 200;

/// How many counts of routes there are: from `LEAST_ROUTES` on, by the number of the storm.
pub const ROUTE_COUNTS: u64 = 800;

/// How many bodies a drawn route may have.
pub const BODIES: u64 = 1_000;

/// How many lanes a storm has.
pub const LANES: u64 = 4;

/// How many steps each lane takes. A step is a change of the configuration and a request to the server.
pub const STEPS: u64 = 16;

/// The port of the admin API.
pub const ADMIN_PORT: u16 = 2019;

/// The port of the server.
pub const SERVER_PORT: u16 = 8080;
