// The numbers of the refusals that saved trees alone can meet, by the specification; numbers as those of tokens are.

pub const RECORD_UNFIT: u32 = 15;

pub const NO_RECORD_KIND: u32 = 16;

pub const NOT_ALLOWED: u32 = 17;
