/// How many bytes the spelling of a list's generator has where there is no spend.
pub const EMPTY_GENERATOR_BYTES: u64 = 5;
