// The numbers of the refusals, by the specification. They are no enum: tried, a token call took 7 % more instructions
// (docs/DESIGN-PASS.md).

pub const TEXT_TOO_LONG: u32 = 1;

pub const START_PAST_END: u32 = 2;

pub const NO_SUCH_KIND: u32 = 3;

pub const NO_ROOM: u32 = 4;

pub const NO_TOKEN: u32 = 5;

pub const COMMENT_NOT_CLOSED: u32 = 6;

pub const HEX_STRING_NOT_CLOSED: u32 = 7;

pub const BYTE_STRING_NOT_CLOSED: u32 = 8;

pub const STRING_NOT_ASCII: u32 = 9;

pub const UNEXPECTED_TOKEN: u32 = 10;

pub const COMMA_FOR_ITEM: u32 = 11;

pub const LIST_NOT_CLOSED: u32 = 12;

pub const NO_VALUE: u32 = 13;

pub const TOO_DEEP: u32 = 14;

pub const LINE_UNPRINTABLE: u32 = 18;

pub const NO_SUCH_EDITION: u32 = 19;

pub const NOT_A_TOKEN_START: u32 = 20;

pub const NOTHING_STARTS: u32 = 21;
