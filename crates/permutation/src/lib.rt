// KECCAK-p[1600, 24] of FIPS 202. The state is 25 lanes: bit z of lane (x, y), the number at 5y + x, is the standard's A[x, y, z].
#![tactic(auto)]

ghost use Rattle.std.specs.Prelude.{◌≡◌};
ghost use Rattle.keccak.specs.Lanes.{theta_lanes, rho_pi_lanes, chi_lanes, round_lanes, permuted};

// The 24 rounds.
pub fn permute(a: [u64; 25]) -> [u64; 25]
    ensures { result ≡ permuted a }
{
    let constants = CONSTANTS;
    let mut b = a;
    let mut i = 0;
    while i < 24 {
        let next = round(b, constants[i]);
        b = next;
        i += 1;
    }
    b
}

// θ, ρ, π, χ and ι.
fn round(a: [u64; 25], c: u64) -> [u64; 25]
    ensures { result ≡ round_lanes c a }
{
    let mut b = chi(rho_pi(theta(a)));
    b[0] ^= c;
    b
}

// The strings RC of ι, as numbers.
const CONSTANTS: [u64; 24] = [
    0x0000000000000001,
    0x0000000000008082,
    0x800000000000808a,
    0x8000000080008000,
    0x000000000000808b,
    0x0000000080000001,
    0x8000000080008081,
    0x8000000000008009,
    0x000000000000008a,
    0x0000000000000088,
    0x0000000080008009,
    0x000000008000000a,
    0x000000008000808b,
    0x800000000000008b,
    0x8000000000008089,
    0x8000000000008003,
    0x8000000000008002,
    0x8000000000000080,
    0x000000000000800a,
    0x800000008000000a,
    0x8000000080008081,
    0x8000000000008080,
    0x0000000080000001,
    0x8000000080008008,
];

// θ
fn theta(a: [u64; 25]) -> [u64; 25]
    ensures { result ≡ theta_lanes a }
{
    let a0 = a[0];
    let a1 = a[1];
    let a2 = a[2];
    let a3 = a[3];
    let a4 = a[4];
    let a5 = a[5];
    let a6 = a[6];
    let a7 = a[7];
    let a8 = a[8];
    let a9 = a[9];
    let a10 = a[10];
    let a11 = a[11];
    let a12 = a[12];
    let a13 = a[13];
    let a14 = a[14];
    let a15 = a[15];
    let a16 = a[16];
    let a17 = a[17];
    let a18 = a[18];
    let a19 = a[19];
    let a20 = a[20];
    let a21 = a[21];
    let a22 = a[22];
    let a23 = a[23];
    let a24 = a[24];
    let c0 = a0 ^ a5 ^ a10 ^ a15 ^ a20;
    let c1 = a1 ^ a6 ^ a11 ^ a16 ^ a21;
    let c2 = a2 ^ a7 ^ a12 ^ a17 ^ a22;
    let c3 = a3 ^ a8 ^ a13 ^ a18 ^ a23;
    let c4 = a4 ^ a9 ^ a14 ^ a19 ^ a24;
    let d0 = c4 ^ ((c1 << 1) | (c1 >> 63));
    let d1 = c0 ^ ((c2 << 1) | (c2 >> 63));
    let d2 = c1 ^ ((c3 << 1) | (c3 >> 63));
    let d3 = c2 ^ ((c4 << 1) | (c4 >> 63));
    let d4 = c3 ^ ((c0 << 1) | (c0 >> 63));
    [
        a0 ^ d0,
        a1 ^ d1,
        a2 ^ d2,
        a3 ^ d3,
        a4 ^ d4,
        a5 ^ d0,
        a6 ^ d1,
        a7 ^ d2,
        a8 ^ d3,
        a9 ^ d4,
        a10 ^ d0,
        a11 ^ d1,
        a12 ^ d2,
        a13 ^ d3,
        a14 ^ d4,
        a15 ^ d0,
        a16 ^ d1,
        a17 ^ d2,
        a18 ^ d3,
        a19 ^ d4,
        a20 ^ d0,
        a21 ^ d1,
        a22 ^ d2,
        a23 ^ d3,
        a24 ^ d4,
    ]
}

// ρ, then π
fn rho_pi(a: [u64; 25]) -> [u64; 25]
    ensures { result ≡ rho_pi_lanes a }
{
    let a0 = a[0];
    let a1 = a[1];
    let a2 = a[2];
    let a3 = a[3];
    let a4 = a[4];
    let a5 = a[5];
    let a6 = a[6];
    let a7 = a[7];
    let a8 = a[8];
    let a9 = a[9];
    let a10 = a[10];
    let a11 = a[11];
    let a12 = a[12];
    let a13 = a[13];
    let a14 = a[14];
    let a15 = a[15];
    let a16 = a[16];
    let a17 = a[17];
    let a18 = a[18];
    let a19 = a[19];
    let a20 = a[20];
    let a21 = a[21];
    let a22 = a[22];
    let a23 = a[23];
    let a24 = a[24];
    [
        a0,
        (a6 << 44) | (a6 >> 20),
        (a12 << 43) | (a12 >> 21),
        (a18 << 21) | (a18 >> 43),
        (a24 << 14) | (a24 >> 50),
        (a3 << 28) | (a3 >> 36),
        (a9 << 20) | (a9 >> 44),
        (a10 << 3) | (a10 >> 61),
        (a16 << 45) | (a16 >> 19),
        (a22 << 61) | (a22 >> 3),
        (a1 << 1) | (a1 >> 63),
        (a7 << 6) | (a7 >> 58),
        (a13 << 25) | (a13 >> 39),
        (a19 << 8) | (a19 >> 56),
        (a20 << 18) | (a20 >> 46),
        (a4 << 27) | (a4 >> 37),
        (a5 << 36) | (a5 >> 28),
        (a11 << 10) | (a11 >> 54),
        (a17 << 15) | (a17 >> 49),
        (a23 << 56) | (a23 >> 8),
        (a2 << 62) | (a2 >> 2),
        (a8 << 55) | (a8 >> 9),
        (a14 << 39) | (a14 >> 25),
        (a15 << 41) | (a15 >> 23),
        (a21 << 2) | (a21 >> 62),
    ]
}

// χ
fn chi(a: [u64; 25]) -> [u64; 25]
    ensures { result ≡ chi_lanes a }
{
    let a0 = a[0];
    let a1 = a[1];
    let a2 = a[2];
    let a3 = a[3];
    let a4 = a[4];
    let a5 = a[5];
    let a6 = a[6];
    let a7 = a[7];
    let a8 = a[8];
    let a9 = a[9];
    let a10 = a[10];
    let a11 = a[11];
    let a12 = a[12];
    let a13 = a[13];
    let a14 = a[14];
    let a15 = a[15];
    let a16 = a[16];
    let a17 = a[17];
    let a18 = a[18];
    let a19 = a[19];
    let a20 = a[20];
    let a21 = a[21];
    let a22 = a[22];
    let a23 = a[23];
    let a24 = a[24];
    [
        a0 ^ (a2 & !a1),
        a1 ^ (a3 & !a2),
        a2 ^ (a4 & !a3),
        a3 ^ (a0 & !a4),
        a4 ^ (a1 & !a0),
        a5 ^ (a7 & !a6),
        a6 ^ (a8 & !a7),
        a7 ^ (a9 & !a8),
        a8 ^ (a5 & !a9),
        a9 ^ (a6 & !a5),
        a10 ^ (a12 & !a11),
        a11 ^ (a13 & !a12),
        a12 ^ (a14 & !a13),
        a13 ^ (a10 & !a14),
        a14 ^ (a11 & !a10),
        a15 ^ (a17 & !a16),
        a16 ^ (a18 & !a17),
        a17 ^ (a19 & !a18),
        a18 ^ (a15 & !a19),
        a19 ^ (a16 & !a15),
        a20 ^ (a22 & !a21),
        a21 ^ (a23 & !a22),
        a22 ^ (a24 & !a23),
        a23 ^ (a20 & !a24),
        a24 ^ (a21 & !a20),
    ]
}
