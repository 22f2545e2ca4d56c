// The kinds of tokens: the Rust's `Tok`, numbered in its order.
// A kind is a number: the specification numbers them, and functions that docs/PROMISES.md names, as `put_leaf` of the
// forms, take a token of any kind.
pub const EOF: u8 = 0;

pub const NUM_VALUE: u8 = 1;

pub const NUM_TYPED_VALUE: u8 = 2;

pub const BYTE_STRING_VALUE: u8 = 3;

pub const IDENTIFIER: u8 = 4;

pub const EXCLAIM: u8 = 5;

pub const EXCLAIM_EQUAL: u8 = 6;

pub const PERCENT: u8 = 7;

pub const AMP: u8 = 8;

pub const AMP_AMP: u8 = 9;

pub const AMP_MUT: u8 = 10;

pub const L_PAREN: u8 = 11;

pub const R_PAREN: u8 = 12;

pub const L_BRACKET: u8 = 13;

pub const R_BRACKET: u8 = 14;

pub const STAR: u8 = 15;

pub const PLUS: u8 = 16;

pub const COMMA: u8 = 17;

pub const MINUS: u8 = 18;

pub const PERIOD: u8 = 19;

pub const PERIOD_PERIOD: u8 = 20;

pub const SLASH: u8 = 21;

pub const COLON: u8 = 22;

pub const COLON_COLON: u8 = 23;

pub const SEMICOLON: u8 = 24;

pub const LESS: u8 = 25;

pub const LESS_EQUAL: u8 = 26;

pub const LESS_LESS: u8 = 27;

pub const EQUAL: u8 = 28;

pub const EQUAL_EQUAL: u8 = 29;

pub const EQUAL_EQUAL_GREATER: u8 = 30;

pub const LESS_EQUAL_EQUAL_GREATER: u8 = 31;

pub const GREATER: u8 = 32;

pub const GREATER_EQUAL: u8 = 33;

pub const GREATER_GREATER: u8 = 34;

pub const CARET: u8 = 35;

pub const ABORT: u8 = 36;

pub const ACQUIRES: u8 = 37;

pub const AS: u8 = 38;

pub const BREAK: u8 = 39;

pub const CONTINUE: u8 = 40;

pub const COPY: u8 = 41;

pub const ELSE: u8 = 42;

pub const FALSE: u8 = 43;

pub const IF: u8 = 44;

pub const INVARIANT: u8 = 45;

pub const LET: u8 = 46;

pub const LOOP: u8 = 47;

pub const MODULE: u8 = 48;

pub const MOVE: u8 = 49;

pub const NATIVE: u8 = 50;

pub const PUBLIC: u8 = 51;

pub const RETURN: u8 = 52;

pub const SPEC: u8 = 53;

pub const STRUCT: u8 = 54;

pub const TRUE: u8 = 55;

pub const USE: u8 = 56;

pub const WHILE: u8 = 57;

pub const L_BRACE: u8 = 58;

pub const PIPE: u8 = 59;

pub const PIPE_PIPE: u8 = 60;

pub const R_BRACE: u8 = 61;

pub const FUN: u8 = 62;

pub const SCRIPT: u8 = 63;

pub const CONST: u8 = 64;

pub const FRIEND: u8 = 65;

pub const NUM_SIGN: u8 = 66;

pub const AT_SIGN: u8 = 67;
