// The field of 64 (01, Parity and check bits), primitive polynomial 1 + x + x^6, vector form.
#![tactic(auto)]

ghost use Rattle.std.specs.Prelude.{◌≡◌};
ghost use Rattle.field64.specs.Field.{product};
ghost use Rattle.field64.specs.Logarithms.{logs, powers, product_by};

pub mod padded;

// 02, CR 5: the exponent of each element; zero has none, its entry is 0.
static LOG: [u8; 64] = [
    0, 0, 1, 6, 2, 12, 7, 26, 3, 32, 13, 35, 8, 48, 27, 18, 4, 24, 33, 16, 14, 52, 36, 54, 9, 45,
    49, 38, 28, 41, 19, 56, 5, 62, 25, 11, 34, 31, 17, 47, 15, 23, 53, 51, 37, 44, 55, 40, 10, 61,
    46, 30, 50, 22, 39, 43, 29, 60, 42, 21, 20, 59, 57, 58,
];

// 02, CR 5: the powers of x, from x^0 on.
static EXP: [u8; 63] = [
    1, 2, 4, 8, 16, 32, 3, 6, 12, 24, 48, 35, 5, 10, 20, 40, 19, 38, 15, 30, 60, 59, 53, 41, 17,
    34, 7, 14, 28, 56, 51, 37, 9, 18, 36, 11, 22, 44, 27, 54, 47, 29, 58, 55, 45, 25, 50, 39, 13,
    26, 52, 43, 21, 42, 23, 46, 31, 62, 63, 61, 57, 49, 33,
];

// The table of logarithms, to be lent to mul_by.
pub fn log_table() -> [u8; 64]
    ensures { result ≡ logs }
{
    LOG
}

// The table of powers, to be lent to mul_by.
pub fn power_table() -> [u8; 63]
    ensures { result ≡ powers }
{
    EXP
}

// The product of two elements by lent tables of logarithms and powers; of any number its six low bits count.
pub fn mul_by(log: &[u8; 64], exp: &[u8; 63], a: u8, b: u8) -> u8
    ensures { result ≡ product_by log.now exp.now a b }
{
    let x = (a % 64) as usize;
    let y = (b % 64) as usize;
    if x == 0 || y == 0 {
        return 0;
    }
    let n = (usize::from(log[x]) + usize::from(log[y])) % 63;
    exp[n]
}

// The product of two elements; of any number its six low bits count.
pub fn mul(a: u8, b: u8) -> u8
    ensures { result ≡ product a b }
{
    let log = log_table();
    let exp = power_table();
    mul_by(&log, &exp, a, b)
}
