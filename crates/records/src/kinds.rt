// The kinds of the records of a stored tree, by the specification's numbers.
// A kind is a number: `seal` and `put_leaf` of the forms, which docs/PROMISES.md names, take any, and a saved tree that
// is read has whatever bytes it was given.

// Names and addresses, chains of one, two and three parts, pairs.
pub const REC_NAME: usize = 1;

pub const REC_ADDRESS: usize = 2;

pub const REC_ONE_PART: usize = 3;

pub const REC_TWO_PART: usize = 4;

pub const REC_THREE_PART: usize = 5;

pub const REC_PAIR: usize = 6;

// Types.
pub const REC_TYPE: usize = 10;

pub const REC_REF: usize = 11;

pub const REC_REF_MUT: usize = 12;

pub const REC_FUNCTION: usize = 13;

pub const REC_UNIT: usize = 14;

pub const REC_TUPLE: usize = 15;

pub const REC_BRACKETS: usize = 16;

// Bindings.
pub const REC_VARIABLE: usize = 20;

pub const REC_STRUCT: usize = 21;

pub const REC_STRUCT_TYPED: usize = 22;

pub const REC_FIELD: usize = 24;

pub const REC_BIND_LIST: usize = 25;

pub const REC_LAMBDA_BIND_LIST: usize = 26;

// Values.
pub const REC_ADDRESS_VALUE: usize = 30;

pub const REC_NUMBER: usize = 31;

pub const REC_TRUE: usize = 32;

pub const REC_FALSE: usize = 33;

pub const REC_HEX_STRING: usize = 34;

pub const REC_BYTE_STRING: usize = 35;
