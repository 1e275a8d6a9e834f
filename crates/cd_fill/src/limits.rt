/// The most bytes of a filled text.
pub const MAX_FILLED_BYTES: usize = 8_388_608;
