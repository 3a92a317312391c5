// Where each thing lies in the room of numbers (specs/Room.antt).
//
// The room is lent by the host as it is (C), and each function says of it that `Lies` holds for a book: a struct round it with
// that as a ghost field would not stand, since between two writes of one message no book lies there (`Filled`, `Gone`, `Free`).
use book::tables::{INSIDES, ORDERS};
use book_index::CELLS;

pub const NEXT: usize = 0;

pub const END: usize = 1;

pub const LIVE: usize = 2;

pub const HELD: usize = 3;

pub const CODE: usize = 4;

// The first fault's number, the count of faults, the first fault's reason.
pub const FAULT: usize = 5;

pub const COUNT: usize = 6;

pub const REASON: usize = 7;

// The rule for types that are not in the table, 0 or 1, and how many of them were counted apart.
pub const RULE: usize = 8;

pub const APART: usize = 9;

// The id values of the live orders, and the index over them.
pub const KEYS: usize = 10;

pub const INDEX: usize = KEYS + ORDERS;

// The index over the insides, the two numbers of each symbol, and an inside's other numbers.
pub const SYMBOLS: usize = INDEX + CELLS;

pub const FRONTS: usize = SYMBOLS + CELLS;

pub const BACKS: usize = FRONTS + INSIDES;

pub const ROWS: usize = BACKS + INSIDES;

pub const ROW: usize = 6;

pub const NUMBERS: usize = ROWS + ROW * INSIDES;

pub type Room = [u64; NUMBERS];
