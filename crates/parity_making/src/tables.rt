// The walk along the parity symbols (02, CR 9), worked out from 000's tables: each group has two parity symbols, and the groups link all 81 in a ring.
ghost use Rattle.std.specs.Prelude.{◌≡◌, ◌<◌, get_or};
ghost use Rattle.parity_making.specs.Walk.{links, carries, turns};

// For each turn: the two message symbols of its group, then the factor of each, divided by that of the parity symbol that is found.
static LINKS: [u8; 324] = [
    0, 42, 25, 11, 15, 65, 28, 10, 1, 50, 23, 28, 40, 67, 7, 30, 26, 59, 44, 53, 14, 56, 28, 10,
    10, 52, 44, 7, 24, 69, 11, 7, 4, 63, 23, 28, 38, 80, 11, 7, 19, 67, 44, 7, 7, 49, 25, 7, 20,
    77, 13, 11, 35, 72, 29, 40, 22, 60, 44, 7, 5, 47, 28, 10, 28, 69, 42, 45, 37, 54, 11, 7, 31,
    78, 29, 40, 9, 60, 23, 28, 23, 76, 29, 40, 8, 46, 25, 11, 13, 42, 53, 24, 28, 73, 21, 25, 30,
    39, 11, 7, 15, 57, 44, 30, 34, 51, 29, 40, 2, 44, 53, 24, 17, 64, 44, 35, 0, 49, 21, 25, 39,
    66, 45, 15, 25, 58, 44, 7, 13, 55, 7, 30, 9, 51, 44, 30, 26, 71, 53, 24, 3, 65, 23, 28, 37, 79,
    25, 7, 18, 66, 42, 45, 6, 48, 28, 48, 19, 76, 21, 25, 34, 74, 25, 7, 21, 62, 44, 30, 4, 46, 53,
    24, 27, 71, 52, 29, 36, 56, 15, 6, 30, 80, 7, 30, 11, 62, 44, 53, 22, 75, 15, 6, 7, 45, 52, 29,
    12, 44, 44, 35, 27, 72, 23, 28, 32, 41, 29, 40, 17, 59, 13, 11, 33, 53, 44, 35, 1, 43, 45, 15,
    16, 63, 30, 24, 2, 48, 44, 30, 41, 68, 28, 10, 24, 57, 44, 30, 12, 54, 28, 48, 11, 53, 44, 53,
    25, 70, 7, 30, 5, 64, 45, 15, 36, 78, 30, 24, 20, 68, 23, 28, 8, 50, 11, 7, 18, 75, 44, 30, 33,
    73, 30, 24, 23, 61, 13, 11, 3, 45, 42, 45, 29, 70, 45, 15, 38, 55, 11, 7, 32, 79, 11, 7, 10,
    61, 45, 15, 21, 77, 30, 24, 6, 47, 31, 44, 14, 43, 28, 48, 29, 74, 52, 29, 31, 40, 44, 35, 16,
    58, 21, 25, 35, 52, 28, 48,
];

// For each turn: the factor of the parity symbol that is known, divided by that of the one that is found.
static CARRIES: [u8; 81] = [
    7, 23, 10, 44, 24, 23, 30, 25, 48, 13, 30, 21, 7, 52, 30, 23, 15, 13, 52, 48, 52, 7, 44, 7, 25,
    24, 52, 44, 31, 7, 42, 30, 44, 24, 44, 10, 21, 15, 23, 7, 21, 24, 44, 40, 45, 44, 24, 45, 40,
    31, 48, 52, 7, 31, 6, 44, 24, 23, 24, 23, 24, 44, 6, 44, 10, 13, 24, 44, 7, 15, 6, 25, 25, 6,
    44, 35, 23, 40, 31, 7, 23,
];

// For each parity symbol: the turn at which it is found; 0 is the one that the walk starts at.
static TURNS: [u8; 81] = [
    0, 54, 27, 70, 43, 16, 39, 12, 66, 33, 6, 60, 25, 79, 52, 19, 73, 46, 77, 50, 23, 8, 62, 35,
    21, 75, 48, 37, 10, 64, 41, 14, 68, 56, 29, 2, 31, 4, 58, 72, 45, 18, 1, 55, 28, 69, 42, 15,
    38, 11, 65, 34, 7, 61, 59, 32, 5, 26, 80, 53, 20, 74, 47, 76, 49, 22, 9, 63, 36, 57, 30, 3, 51,
    24, 78, 67, 40, 13, 17, 71, 44,
];

// Entry i of the message symbols and their factors.
pub fn link(i: usize) -> u8
    requires { i < 324 }
    ensures { result ≡ get_or links i 0 }
{
    LINKS[i]
}

// The factor of the symbol that is known at turn k.
pub fn carry(k: usize) -> u8
    requires { k < 81 }
    ensures { result ≡ get_or carries k 0 }
{
    CARRIES[k]
}

// The turn of parity symbol j.
pub fn turn(j: usize) -> u8
    requires { j < 81 }
    ensures entry { result ≡ get_or turns j 0 }
    ensures within { result < 82 }
{
    TURNS[j]
}
