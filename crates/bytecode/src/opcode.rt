// The opcodes (document 01: code bytes) by name. They are bytes of an image that a caller lends, any byte among them, so they stay bytes and no enum.
pub const CONSTANT: u8 = 1;

pub const CURRENT: u8 = 2;

pub const PREVIOUS: u8 = 3;

pub const ADD: u8 = 4;

pub const SUBTRACT: u8 = 5;

pub const MULTIPLY: u8 = 6;

pub const DIVIDE: u8 = 7;

pub const MODULO: u8 = 8;

pub const NEGATE: u8 = 9;

pub const EQUAL: u8 = 10;

pub const NOT_EQUAL: u8 = 11;

pub const LESS: u8 = 12;

pub const LESS_EQUAL: u8 = 13;

pub const GREATER: u8 = 14;

pub const GREATER_EQUAL: u8 = 15;

pub const NOT: u8 = 16;

pub const AND: u8 = 17;

pub const OR: u8 = 18;

pub const GATE: u8 = 19;

pub const PICK: u8 = 20;

pub const LET: u8 = 21;

pub const SETTLE: u8 = 22;

// A timer (document 02, A.7).
pub const TIMER: u8 = 23;

// Picks of a rising and of a falling value (document 02, A.6).
pub const RISE: u8 = 24;

pub const FALL: u8 = 25;
