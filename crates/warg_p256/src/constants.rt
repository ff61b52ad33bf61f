// The numbers of the curve P-256 (SEC 2, 2.4.2), and what Montgomery's products take of them.

use warg_modular::words::Words;

// The prime of the field.
pub const P: Words = Words {
    l0: 0xffffffffffffffff,
    l1: 0x00000000ffffffff,
    l2: 0x0000000000000000,
    l3: 0xffffffff00000001,
};

// The order of the base point.
pub const N: Words = Words {
    l0: 0xf3b9cac2fc632551,
    l1: 0xbce6faada7179e84,
    l2: 0xffffffffffffffff,
    l3: 0xffffffff00000000,
};

// 2 ^ 512 modulo P.
pub const R2_P: Words = Words {
    l0: 0x0000000000000003,
    l1: 0xfffffffbffffffff,
    l2: 0xfffffffffffffffe,
    l3: 0x00000004fffffffd,
};

// 2 ^ 512 modulo N.
pub const R2_N: Words = Words {
    l0: 0x83244c95be79eea2,
    l1: 0x4699799c49bd6fa6,
    l2: 0x2845b2392b6bec59,
    l3: 0x66e12d94f3d95620,
};

// 2 ^ 256 modulo P: 1 in Montgomery's form.
pub const ONE_P: Words = Words {
    l0: 0x0000000000000001,
    l1: 0xffffffff00000000,
    l2: 0xffffffffffffffff,
    l3: 0x00000000fffffffe,
};

// The curve's b in Montgomery's form.
pub const B_MONTGOMERY: Words = Words {
    l0: 0xd89cdf6229c4bddf,
    l1: 0xacf005cd78843090,
    l2: 0xe5a220abf7212ed6,
    l3: 0xdc30061d04874834,
};

// (P + 1) / 4: a square's power by it is a root of the square.
pub const ROOT_EXPONENT: Words = Words {
    l0: 0x0000000000000000,
    l1: 0x0000000040000000,
    l2: 0x4000000000000000,
    l3: 0x3fffffffc0000000,
};

// P - N.
pub const P_LESS_N: Words = Words {
    l0: 0x0c46353d039cdaae,
    l1: 0x4319055358e8617b,
    l2: 0x0000000000000000,
    l3: 0x0000000000000000,
};

// -1 / P modulo 2 ^ 64.
pub const P_INVERSE: u64 = 0x1;

// -1 / N modulo 2 ^ 64.
pub const N_INVERSE: u64 = 0xccd1c8aaee00bc4f;

// 0, in any form.
pub const ZERO: Words = Words {
    l0: 0,
    l1: 0,
    l2: 0,
    l3: 0,
};
