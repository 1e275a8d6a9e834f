ghost use Rattle.std.specs.Prelude.{◌≡◌};
ghost use Rattle.cd_wire.specs.Faults.{status_of};
ghost use Rattle.cd_wire.specs.Render.{IsRefusal};

/// Why the bytes of a connection are refused.
#[derive(Clone, Copy, Debug, PartialEq, Eq, Drop)]
pub enum WireFault {
    /// They begin with no head within the limits (RFC 9112, section 2).
    BadHead,
    /// The target has none of the forms that are known, or a byte or an escape that it may not have (RFC 9112, section 3.2).
    BadTarget,
    /// There is not the one Host that the version wants, or its value has a byte that it may not have (RFC 9112, section 3.2).
    BadHost,
    /// What says how long the body is says it in no way, or in more than one (RFC 9112, section 6.3); or a chunk of it is
    /// malformed (section 7.1).
    BadLength,
    /// The body is longer than `MAX_BODY_BYTES`, by its length or by the sizes of its chunks so far.
    BodyTooLong,
    /// The body has another coding than `chunked` alone (RFC 9112, section 6.1).
    UnknownCoding,
}

impl WireFault {
    /// The status that says so: 400, 413 or 501. `refusal` has the answer to it.
    pub fn status(self) -> u16
        ensures status { result ≡ status_of self }
        ensures refusal { IsRefusal result }
    {
        match self {
            WireFault::BadHead | WireFault::BadTarget | WireFault::BadHost | WireFault::BadLength =>
                400,
            WireFault::BodyTooLong => 413,
            WireFault::UnknownCoding => 501,
        }
    }
}
