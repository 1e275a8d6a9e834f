ghost use Rattle.std.specs.Prelude.{◌≡◌, ◌+◌, Some};

/// What is left to be ended of a draft: its apps are stopped first, the last one first, and then its instances are cleaned. It is
/// not dropped, so that none is forgotten.
pub struct Closing {
    pub(crate) number: u64,
    // with which serial it was published; none where it was given up
    pub(crate) serial: Option<u32>,
    pub(crate) apps: u32,
    pub(crate) instances: u32,
}

impl Closing {
    /// How many apps are left to be stopped.
    pub fn apps_left(&self) -> u32
        ensures { result ≡ self.now.apps }
    {
        self.apps
    }

    /// How many instances are left to be cleaned.
    pub fn instances_left(&self) -> u32
        ensures { result ≡ self.now.instances }
    {
        self.instances
    }

    /// Spends it where nothing is left.
    pub fn end(self)
        requires apps { self.apps ≡ 0 }
        requires instances { self.instances ≡ 0 }
    {
        let Closing {
            number: _,
            serial: _,
            apps: _,
            instances: _,
        } = self;
    }

    /// Spends that of a published configuration: what is left of it can be asked for again.
    pub fn put_back(self, serial: u32)
        requires { self.serial ≡ Some serial }
    {
        let _ = serial;
        let Closing {
            number: _,
            serial: _,
            apps: _,
            instances: _,
        } = self;
    }
}
