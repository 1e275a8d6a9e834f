ghost use Rattle.std.specs.Prelude.{◌≡◌};
ghost use Rattle.cd_storm.specs.Draws.{next};

/// What the generator multiplies by (Knuth's MMIX).
pub const MULTIPLIER: u64 = 6_364_136_223_846_793_005;

/// What the generator adds (Knuth's MMIX).
pub const INCREMENT: u64 = 1_442_695_040_888_963_407;

/// The values of a storm, one after another.
#[derive(Drop)]
pub struct Draws {
    /// The value that was drawn last, at first the number of the storm.
    pub last: u64,
}

impl Draws {
    /// Draws a value.
    pub fn draw(&mut self) -> u64
        ensures value { result ≡ next self.old.last }
        ensures last { self.new.last ≡ result }
    {
        self.last = following(self.last);
        self.last
    }
}

// The value after this one.
fn following(value: u64) -> u64
    ensures { result ≡ next value }
{
    value.wrapping_mul(MULTIPLIER).wrapping_add(INCREMENT)
}
