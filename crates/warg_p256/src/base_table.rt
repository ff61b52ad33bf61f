// The multiples 1 to 255 of the base point, in Montgomery's form. `tools/curve_certificates`
// writes the rows.

ghost use Rattle.std.specs.Prelude.{◌≡◌, ◌<◌};
ghost use Rattle.warg_curve.specs.Curve.{base};
ghost use Rattle.warg_curve.specs.Group.{multiple};
ghost use Rattle.warg_p256.specs.Rows.{point_of};

use crate::field::Element;
use crate::point::Affine;
use warg_modular::words::Words;

// A multiple's coordinates.
struct Row {
    x: Words,
    y: Words,
}

// `i` times the base point, which the row `i` - 1 has.
pub(crate) fn base_multiple(i: usize) -> Affine
    requires some { 0 < i }
    requires few { i < 256 }
    ensures { point_of result ≡ multiple i base }
{
    let row = &ROWS[i - 1];
    Affine {
        x: Element { words: row.x },
        y: Element { words: row.y },
    }
}

static ROWS: [Row; 255] = [
    Row {
        x: Words {
            l0: 0x79e730d418a9143c,
            l1: 0x75ba95fc5fedb601,
            l2: 0x79fb732b77622510,
            l3: 0x18905f76a53755c6,
        },
        y: Words {
            l0: 0xddf25357ce95560a,
            l1: 0x8b4ab8e4ba19e45c,
            l2: 0xd2e88688dd21f325,
            l3: 0x8571ff1825885d85,
        },
    },
    Row {
        x: Words {
            l0: 0x850046d410ddd64d,
            l1: 0xaa6ae3c1a433827d,
            l2: 0x732205038d1490d9,
            l3: 0xf6bb32e43dcf3a3b,
        },
        y: Words {
            l0: 0x2f3648d361bee1a5,
            l1: 0x152cd7cbeb236ff8,
            l2: 0x19a8fb0e92042dbe,
            l3: 0x78c577510a5b8a3b,
        },
    },
    Row {
        x: Words {
            l0: 0xffac3f904eebc127,
            l1: 0xb027f84a087d81fb,
            l2: 0x66ad77dd87cbbc98,
            l3: 0x26936a3fb6ff747e,
        },
        y: Words {
            l0: 0xb04c5c1fc983a7eb,
            l1: 0x583e47ad0861fe1a,
            l2: 0x788208311a2ee98e,
            l3: 0xd5f06a29e587cc07,
        },
    },
    Row {
        x: Words {
            l0: 0x74b0b50d46918dcc,
            l1: 0x4650a6edc623c173,
            l2: 0x0cdaacace8100af2,
            l3: 0x577362f541b0176b,
        },
        y: Words {
            l0: 0x2d96f24ce4cbaba6,
            l1: 0x17628471fad6f447,
            l2: 0x6b6c36dee5ddd22e,
            l3: 0x84b14c394c5ab863,
        },
    },
    Row {
        x: Words {
            l0: 0xbe1b8aaec45c61f5,
            l1: 0x90ec649a94b9537d,
            l2: 0x941cb5aad076c20c,
            l3: 0xc9079605890523c8,
        },
        y: Words {
            l0: 0xeb309b4ae7ba4f10,
            l1: 0x73c568efe5eb882b,
            l2: 0x3540a9877e7a1f68,
            l3: 0x73a076bb2dd1e916,
        },
    },
    Row {
        x: Words {
            l0: 0x403947373e77664a,
            l1: 0x55ae744f346cee3e,
            l2: 0xd50a961a5b17a3ad,
            l3: 0x13074b5954213673,
        },
        y: Words {
            l0: 0x93d36220d377e44b,
            l1: 0x299c2b53adff14b5,
            l2: 0xf424d44cef639f11,
            l3: 0xa4c9916d4a07f75f,
        },
    },
    Row {
        x: Words {
            l0: 0x0746354ea0173b4f,
            l1: 0x2bd20213d23c00f7,
            l2: 0xf43eaab50c23bb08,
            l3: 0x13ba5119c3123e03,
        },
        y: Words {
            l0: 0x2847d0303f5b9d4d,
            l1: 0x6742f2f25da67bdd,
            l2: 0xef933bdc77c94195,
            l3: 0xeaedd9156e240867,
        },
    },
    Row {
        x: Words {
            l0: 0x27f14cd19499a78f,
            l1: 0x462ab5c56f9b3455,
            l2: 0x8f90f02af02cfc6b,
            l3: 0xb763891eb265230d,
        },
        y: Words {
            l0: 0xf59da3a9532d4977,
            l1: 0x21e3327dcf9eba15,
            l2: 0x123c7b84be60bbf0,
            l3: 0x56ec12f27706df76,
        },
    },
    Row {
        x: Words {
            l0: 0x75c96e8f264e20e8,
            l1: 0xabe6bfed59a7a841,
            l2: 0x2cc09c0444c8eb00,
            l3: 0xe05b3080f0c4e16b,
        },
        y: Words {
            l0: 0x1eb7777aa45f3314,
            l1: 0x56af7bedce5d45e3,
            l2: 0x2b6e019a88b12f1a,
            l3: 0x086659cdfd835f9b,
        },
    },
    Row {
        x: Words {
            l0: 0x2c18dbd19dc21ec8,
            l1: 0x98f9868a0fcf8139,
            l2: 0x737d2cd648250b49,
            l3: 0xcc61c94724b3428f,
        },
        y: Words {
            l0: 0x0c2b407880dd9e76,
            l1: 0xc43a8991383fbe08,
            l2: 0x5f7d2d65779be5d2,
            l3: 0x78719a54eb3b4ab5,
        },
    },
    Row {
        x: Words {
            l0: 0xea7d260a6245e404,
            l1: 0x9de407956e7fdfe0,
            l2: 0x1ff3a4158dac1ab5,
            l3: 0x3e7090f1649c9073,
        },
        y: Words {
            l0: 0x1a7685612b944e88,
            l1: 0x250f939ee57f61c8,
            l2: 0x0c0daa891ead643d,
            l3: 0x68930023e125b88e,
        },
    },
    Row {
        x: Words {
            l0: 0x04b71aa7d2697768,
            l1: 0xabdedef5ca345a33,
            l2: 0x2409d29dee37385e,
            l3: 0x4ee1df77cb83e156,
        },
        y: Words {
            l0: 0x0cac12d91cbb5b43,
            l1: 0x170ed2f6ca895637,
            l2: 0x28228cfa8ade6d66,
            l3: 0x7ff57c9553238aca,
        },
    },
    Row {
        x: Words {
            l0: 0xccc425634b2ed709,
            l1: 0x0e356769856fd30d,
            l2: 0xbcbcd43f559e9811,
            l3: 0x738477ac5395b759,
        },
        y: Words {
            l0: 0x35752b90c00ee17f,
            l1: 0x68748390742ed2e3,
            l2: 0x7cd06422bd1f5bc1,
            l3: 0xfbc08769c9e7b797,
        },
    },
    Row {
        x: Words {
            l0: 0xa242a35bb0cf664a,
            l1: 0x126e48f77f9707e3,
            l2: 0x1717bf54c6832660,
            l3: 0xfaae7332fd12c72e,
        },
        y: Words {
            l0: 0x27b52db7995d586b,
            l1: 0xbe29569e832237c2,
            l2: 0xe8e4193e2a65e7db,
            l3: 0x152706dc2eaa1bbb,
        },
    },
    Row {
        x: Words {
            l0: 0x72bcd8b7bc60055b,
            l1: 0x03cc23ee56e27e4b,
            l2: 0xee337424e4819370,
            l3: 0xe2aa0e430ad3da09,
        },
        y: Words {
            l0: 0x40b8524f6383c45d,
            l1: 0xd766355442a41b25,
            l2: 0x64efa6de778a4797,
            l3: 0x2042170a7079adf4,
        },
    },
    Row {
        x: Words {
            l0: 0x808b0b650bc6fb80,
            l1: 0x5882e0753ffe2e6b,
            l2: 0xd5ef2f7c2c83f549,
            l3: 0x54d63c809103b723,
        },
        y: Words {
            l0: 0xf2f11bd652a23f9b,
            l1: 0x3670c3194b0b6587,
            l2: 0x55c4623bb1580e9e,
            l3: 0x64edf7b201efe220,
        },
    },
    Row {
        x: Words {
            l0: 0x97091dcbd53c5c9d,
            l1: 0xf17624b6ac0a177b,
            l2: 0xb0f139752cfe2dff,
            l3: 0xc1a35c0a6c7a574e,
        },
        y: Words {
            l0: 0x227d314693e79987,
            l1: 0x0575bf30e89cb80e,
            l2: 0x2f4e247f0d1883bb,
            l3: 0xebd512263274c3d0,
        },
    },
    Row {
        x: Words {
            l0: 0x5f3e51c856ada97a,
            l1: 0x4afc964d8f8b403e,
            l2: 0xa6f247ab412e2979,
            l3: 0x675abd1b6f80ebda,
        },
        y: Words {
            l0: 0x66a2bd725e485a1d,
            l1: 0x4b2a5caf8f4f0b3c,
            l2: 0x2626927f1b847bba,
            l3: 0x6c6fc7d90502394d,
        },
    },
    Row {
        x: Words {
            l0: 0xfea912baa5659ae8,
            l1: 0x68363aba25e1a16e,
            l2: 0xb8842277752c41ac,
            l3: 0xfe545c282897c3fc,
        },
        y: Words {
            l0: 0x2d36e9e7dc4c696b,
            l1: 0x5806244afba977c5,
            l2: 0x85665e9be39508c1,
            l3: 0xf720ee256d12597b,
        },
    },
    Row {
        x: Words {
            l0: 0x8a979129d2337a31,
            l1: 0x5916868f0f862bdc,
            l2: 0x048099d95dd283ba,
            l3: 0xe2d1eeb6fe5bfb4e,
        },
        y: Words {
            l0: 0x82ef1c417884005d,
            l1: 0xa2d4ec17ffffcbae,
            l2: 0x9161c53f8aa95e66,
            l3: 0x5ee104e1c5fee0d0,
        },
    },
    Row {
        x: Words {
            l0: 0x562e4cecc135b208,
            l1: 0x74e1b2654783f47d,
            l2: 0x6d2a506c5a3f3b30,
            l3: 0xecead9f4c16762fc,
        },
        y: Words {
            l0: 0xf29dd4b2e286e5b9,
            l1: 0x1b0fadc083bb3c61,
            l2: 0x7a75023e7fac29a4,
            l3: 0xc086d5f1c9477fa3,
        },
    },
    Row {
        x: Words {
            l0: 0x0fc611352f6f3076,
            l1: 0xc99ffa23e3912a9a,
            l2: 0x6a0b0685d2f8ba3d,
            l3: 0xfdc777e8e93358a4,
        },
        y: Words {
            l0: 0x94a787bb35415f04,
            l1: 0x640c2d6a4d23fea4,
            l2: 0x9de917da153a35b5,
            l3: 0x793e8d075d5cd074,
        },
    },
    Row {
        x: Words {
            l0: 0xf4f876532de45068,
            l1: 0x37c7a7e89e2e1f6e,
            l2: 0xd0825fa2a3584069,
            l3: 0xaf2cea7c1727bf42,
        },
        y: Words {
            l0: 0x0360a4fb9e4785a9,
            l1: 0xe5fda49c27299f4a,
            l2: 0x48068e1371ac2f71,
            l3: 0x83d0687b9077666f,
        },
    },
    Row {
        x: Words {
            l0: 0x6d3883b215d02819,
            l1: 0x6d0d755040dd9a35,
            l2: 0x61d7cbf91d2b469f,
            l3: 0xf97b232f2efc3115,
        },
        y: Words {
            l0: 0xa551d750b24bcbc7,
            l1: 0x11ea494988a1e356,
            l2: 0x7669f03193cb7501,
            l3: 0x595dc55eca737b8a,
        },
    },
    Row {
        x: Words {
            l0: 0xa4a319acd837879f,
            l1: 0x6fc1b49eed6b67b0,
            l2: 0xe395993332f1f3af,
            l3: 0x966742eb65432a2e,
        },
        y: Words {
            l0: 0x4b8dc9feb4966228,
            l1: 0x96cc631243f43950,
            l2: 0x12068859c9b731ee,
            l3: 0x7b948dc356f79968,
        },
    },
    Row {
        x: Words {
            l0: 0x61e4ad32ed1f8008,
            l1: 0xe6c9267ad8b17538,
            l2: 0x1ac7c5eb857ff6fb,
            l3: 0x994baaa855f2fb10,
        },
        y: Words {
            l0: 0x84cf14e11d248018,
            l1: 0x5a39898b628ac508,
            l2: 0x14fde97b5fa944f5,
            l3: 0xed178030d12e5ac7,
        },
    },
    Row {
        x: Words {
            l0: 0x042c2af497e2feb4,
            l1: 0xd36a42d7aebf7313,
            l2: 0x49d2c9eb084ffdd7,
            l3: 0x9f8aa54b2ef7c76a,
        },
        y: Words {
            l0: 0x9200b7ba09895e70,
            l1: 0x3bd0c66fddb7fb58,
            l2: 0x2d97d10878eb4cbb,
            l3: 0x2d431068d84bde31,
        },
    },
    Row {
        x: Words {
            l0: 0x4b523eb7172ccd1f,
            l1: 0x7323cb2830a6a892,
            l2: 0x97082ec0cfe153eb,
            l3: 0xe97f6b6af2aadb97,
        },
        y: Words {
            l0: 0x1d3d393ed1a83da1,
            l1: 0xa6a7f9c7804b2a68,
            l2: 0x4a688b482d0cb71e,
            l3: 0xa9b4cc5f40585278,
        },
    },
    Row {
        x: Words {
            l0: 0x5e5db46acb66e132,
            l1: 0xf1be963a0d925880,
            l2: 0x944a70270317b9e2,
            l3: 0xe266f95948603d48,
        },
        y: Words {
            l0: 0x98db66735c208899,
            l1: 0x90472447a2fb18a3,
            l2: 0x8a966939777c619f,
            l3: 0x3798142a2a3be21b,
        },
    },
    Row {
        x: Words {
            l0: 0xb4241cb13298b343,
            l1: 0xa3a14e49b44f65a1,
            l2: 0xc5f4d6cd3ac77acd,
            l3: 0xd0288cb552b6fc3c,
        },
        y: Words {
            l0: 0xd5cc8c2f1c040abc,
            l1: 0xb675511e06bf9b4a,
            l2: 0xd667da379b3aa441,
            l3: 0x460d45ce51601f72,
        },
    },
    Row {
        x: Words {
            l0: 0xe2f73c696755ff89,
            l1: 0xdd3cf7e7473017e6,
            l2: 0x8ef5689d3cf7600d,
            l3: 0x948dc4f8b1fc87b4,
        },
        y: Words {
            l0: 0xd9e9fe814ea53299,
            l1: 0x2d921ca298eb6028,
            l2: 0xfaecedfd0c9803fc,
            l3: 0xf38ae8914d7b4745,
        },
    },
    Row {
        x: Words {
            l0: 0xd8c5fccfc5e3a3d8,
            l1: 0xbefd904c4079dfbf,
            l2: 0xbc6d6a58fead0197,
            l3: 0x39227077695532a4,
        },
        y: Words {
            l0: 0x09e23e6ddbef42f5,
            l1: 0x7e449b64480a9908,
            l2: 0x7b969c1aad9a2e40,
            l3: 0x6231d7929591c2a4,
        },
    },
    Row {
        x: Words {
            l0: 0x871514560f664534,
            l1: 0x85ceae7c4b68f103,
            l2: 0xac09c4ae65578ab9,
            l3: 0x33ec6868f044b10c,
        },
        y: Words {
            l0: 0x6ac4832b3a8ec1f1,
            l1: 0x5509d1285847d5ef,
            l2: 0xf909604f763f1574,
            l3: 0xb16c4303c32f63c4,
        },
    },
    Row {
        x: Words {
            l0: 0xb6ab20147ca23cd3,
            l1: 0xcaa7a5c6a391849d,
            l2: 0x5b0673a375678d94,
            l3: 0xc982ddd4dd303e64,
        },
        y: Words {
            l0: 0xfd7b000b5db6f971,
            l1: 0xbba2cb1f6f876f92,
            l2: 0xc77332a33c569426,
            l3: 0xa159100c570d74f8,
        },
    },
    Row {
        x: Words {
            l0: 0xfd16847fdec67ef5,
            l1: 0x742ee464233e76b7,
            l2: 0x0b8e4134efc2b4c8,
            l3: 0xca640b8642a3e521,
        },
        y: Words {
            l0: 0x653a01908ceb6aa9,
            l1: 0x313c300c547852d5,
            l2: 0x24e4ab126b237af7,
            l3: 0x2ba901628bb47af8,
        },
    },
    Row {
        x: Words {
            l0: 0x3d5e58d6a8219bb7,
            l1: 0xc691d0bd1b06c57f,
            l2: 0x0ae4cb10d257576e,
            l3: 0x3569656cd54a3dc3,
        },
        y: Words {
            l0: 0xe5ebaebd94cda03a,
            l1: 0x934e82d3162bfe13,
            l2: 0x450ac0bae251a0c6,
            l3: 0x480b9e11dd6da526,
        },
    },
    Row {
        x: Words {
            l0: 0x00467bc58cce08b5,
            l1: 0xb636458c7f178d55,
            l2: 0xc5748baea677d806,
            l3: 0x2763a387dfa394eb,
        },
        y: Words {
            l0: 0xa12b448a7d3cebb6,
            l1: 0xe7adda3e6f20d850,
            l2: 0xf63ebce51558462c,
            l3: 0x58b36143620088a8,
        },
    },
    Row {
        x: Words {
            l0: 0x8a2cc3ca4d63c0ee,
            l1: 0x512331170fe948ce,
            l2: 0x7463fd85222ef33b,
            l3: 0xadf0c7dc7c603d6c,
        },
        y: Words {
            l0: 0x0ec32d3bfe7765e5,
            l1: 0xccaab359bf380409,
            l2: 0xbdaa84d68e59319c,
            l3: 0xd9a4c2809c80c34d,
        },
    },
    Row {
        x: Words {
            l0: 0xa9d89488a059c142,
            l1: 0x6f5ae714ff0b9346,
            l2: 0x068f237d16fb3664,
            l3: 0x5853e4c4363186ac,
        },
        y: Words {
            l0: 0xe2d87d2363c52f98,
            l1: 0x2ec4a76681828876,
            l2: 0x47b864fae14e7b1c,
            l3: 0x0c0bc0e569192408,
        },
    },
    Row {
        x: Words {
            l0: 0xe4d7681db82e9f3e,
            l1: 0x83200f0bdf25e13c,
            l2: 0x8909984c66f27280,
            l3: 0x462d7b0075f73227,
        },
        y: Words {
            l0: 0xd90ba188f2651798,
            l1: 0x74c6e18c36ab1c34,
            l2: 0xab256ea35ef54359,
            l3: 0x03466612d1aa702f,
        },
    },
    Row {
        x: Words {
            l0: 0x624d60492ed22e91,
            l1: 0x6fdfe0b56f072822,
            l2: 0xeeca111539ce2271,
            l3: 0x98100a4fdb01614f,
        },
        y: Words {
            l0: 0xb6b0daa2a35c628f,
            l1: 0xb6f94d2ec87e9a47,
            l2: 0xc67732591d57d9ce,
            l3: 0xf70bfeec03884a7b,
        },
    },
    Row {
        x: Words {
            l0: 0x5fb35ccfed2bad01,
            l1: 0xa155cbe31da6a5c7,
            l2: 0xc2e2594c30a92f8f,
            l3: 0x649c89ce5bfafe43,
        },
        y: Words {
            l0: 0xd158667de9ff257a,
            l1: 0x9b359611f32c50ae,
            l2: 0x4b00b20b906014cf,
            l3: 0xf3a8cfe389bc7d3d,
        },
    },
    Row {
        x: Words {
            l0: 0x4ff23ffd248a7d06,
            l1: 0x80c5bfb4878873fa,
            l2: 0xb7d9ad9005745981,
            l3: 0x179c85db3db01994,
        },
        y: Words {
            l0: 0xba41b06261a6966c,
            l1: 0x4d82d052eadce5a8,
            l2: 0x9e91cd3ba5e6a318,
            l3: 0x47795f4f95b2dda0,
        },
    },
    Row {
        x: Words {
            l0: 0xecfd7c1fd55a897c,
            l1: 0x009194abb29110fb,
            l2: 0x5f0e2046e381d3b0,
            l3: 0x5f3425f6a98dd291,
        },
        y: Words {
            l0: 0xbfa06687730d50da,
            l1: 0x0423446c4b083b7f,
            l2: 0x397a247dd69d3417,
            l3: 0xeb629f90387ba42a,
        },
    },
    Row {
        x: Words {
            l0: 0x1ee426ccd5cd79bf,
            l1: 0x0032940b946c6e18,
            l2: 0x1b1e8ae057477f58,
            l3: 0xe94f7d346d823278,
        },
        y: Words {
            l0: 0xc747cb96782ba21a,
            l1: 0xc5254469f72b33a5,
            l2: 0x772ef6dec7f80c81,
            l3: 0xd73acbfe2cd9e6b5,
        },
    },
    Row {
        x: Words {
            l0: 0x4075b5b149ee90d9,
            l1: 0x785c339aa06e9eba,
            l2: 0xa1030d5babf825e0,
            l3: 0xcec684c3a42931dc,
        },
        y: Words {
            l0: 0x42ab62c9c1586e63,
            l1: 0x45431d665ab43f2b,
            l2: 0x57c8b2c055f7835d,
            l3: 0x033da338c1b7f865,
        },
    },
    Row {
        x: Words {
            l0: 0x283c7513caa76097,
            l1: 0x0a624fa936c83906,
            l2: 0x6b20afec715af2c7,
            l3: 0x4b969974eba78bfd,
        },
        y: Words {
            l0: 0x220755ccd921d60e,
            l1: 0x9b944e107baeca13,
            l2: 0x04819d515ded93d4,
            l3: 0x9bbff86e6dddfd27,
        },
    },
    Row {
        x: Words {
            l0: 0x6b34413077adc612,
            l1: 0xa7496529bbd803a0,
            l2: 0x1a1baaa76d8805bd,
            l3: 0xc8403902470343ad,
        },
        y: Words {
            l0: 0x39f59f66175adff1,
            l1: 0x0b26d7fbb7d8c5b7,
            l2: 0xa875f5ce529d75e3,
            l3: 0x85efc7e941325cc2,
        },
    },
    Row {
        x: Words {
            l0: 0x21950b421ff6acd3,
            l1: 0xffe7048453dc6909,
            l2: 0xff4cd0b228766127,
            l3: 0xabdbe6084fb7db2b,
        },
        y: Words {
            l0: 0x837c92285e1109e8,
            l1: 0x26147d27f4645b5a,
            l2: 0x4d78f592f7818ed8,
            l3: 0xd394077ef247fa36,
        },
    },
    Row {
        x: Words {
            l0: 0x0fb9c2d0488c171a,
            l1: 0xa78bfbaa13685278,
            l2: 0xedfbe268d5b1fa6a,
            l3: 0x0dceb8db2b7eaba7,
        },
        y: Words {
            l0: 0xbf9e80899ae2b710,
            l1: 0xefde7ae6a4449c96,
            l2: 0x43b7716bcc143a46,
            l3: 0xd7d34194c3628c13,
        },
    },
    Row {
        x: Words {
            l0: 0x508cec1c3b3f64c9,
            l1: 0xe20bc0ba1e5edf3f,
            l2: 0xda1deb852f4318d4,
            l3: 0xd20ebe0d5c3fa443,
        },
        y: Words {
            l0: 0x370b4ea773241ea3,
            l1: 0x61f1511c5e1a5f65,
            l2: 0x99a5e23d82681c62,
            l3: 0xd731e383a2f54c2d,
        },
    },
    Row {
        x: Words {
            l0: 0x2692f36e83445904,
            l1: 0x2e0ec469af45f9c0,
            l2: 0x905a3201c67528b7,
            l3: 0x88f77f34d0e5e542,
        },
        y: Words {
            l0: 0xf67a8d295864687c,
            l1: 0x23b92eae22df3562,
            l2: 0x5c27014b9bbec39e,
            l3: 0x7ef2f2269c0f0f8d,
        },
    },
    Row {
        x: Words {
            l0: 0x97359638546c4d8d,
            l1: 0x5f9c3fc492f24679,
            l2: 0x912e8beda8c8acd9,
            l3: 0xec3a318d306634b0,
        },
        y: Words {
            l0: 0x80167f41c31cb264,
            l1: 0x3db82f6f522113f2,
            l2: 0xb155bcd2dcafe197,
            l3: 0xfba1da5943465283,
        },
    },
    Row {
        x: Words {
            l0: 0xa0425b8eb212cf53,
            l1: 0x4f2e512ef8557c5f,
            l2: 0xc1286ff925c4d56c,
            l3: 0xbb8a0feaee26c851,
        },
        y: Words {
            l0: 0xc28f70d2e7d6107e,
            l1: 0x7ee0c444e76265aa,
            l2: 0x3df277a41d1936b1,
            l3: 0x1a556e3fea9595eb,
        },
    },
    Row {
        x: Words {
            l0: 0x258bbbf9e7305683,
            l1: 0x31eea5bf07ef5be6,
            l2: 0x0deb0e4a46c814c1,
            l3: 0x5cee8449a7b730dd,
        },
        y: Words {
            l0: 0xeab495c5a0182bde,
            l1: 0xee759f879e27a6b4,
            l2: 0xc2cf6a6880e518ca,
            l3: 0x25e8013ff14cf3f4,
        },
    },
    Row {
        x: Words {
            l0: 0x8fc441407e8d7a14,
            l1: 0xbb1ff3ca9556f36a,
            l2: 0x6a84438514600044,
            l3: 0xba3f0c4a7451ae63,
        },
        y: Words {
            l0: 0xdfcac25b1f9af32a,
            l1: 0x01e0db86b1f2214b,
            l2: 0x4e9a5bc2a4b596ac,
            l3: 0x83927681026c2c08,
        },
    },
    Row {
        x: Words {
            l0: 0x3ec832e77acaca28,
            l1: 0x1bfeea57c7385b29,
            l2: 0x068212e3fd1eaf38,
            l3: 0xc13298306acf8ccc,
        },
        y: Words {
            l0: 0xb909f2db2aac9e59,
            l1: 0x5748060db661782a,
            l2: 0xc5ab2632c79b7a01,
            l3: 0xda44c6c600017626,
        },
    },
    Row {
        x: Words {
            l0: 0xf26c00e8a7ea82f0,
            l1: 0x99cac80de4299aaf,
            l2: 0xd66fe3b67ed78be1,
            l3: 0x305f725f648d02cd,
        },
        y: Words {
            l0: 0x33ed1bc4623fb21b,
            l1: 0xfa70533e7a6319ad,
            l2: 0x17ab562dbe5ffb3e,
            l3: 0x0637499456674741,
        },
    },
    Row {
        x: Words {
            l0: 0x69d44ed65c46aa8e,
            l1: 0x2100d5d3a8d063d1,
            l2: 0xcb9727eaa2d17c36,
            l3: 0x4c2bab1b8add53b7,
        },
        y: Words {
            l0: 0xa084e90c15426704,
            l1: 0x778afcd3a837ebea,
            l2: 0x6651f7017ce477f8,
            l3: 0xa062499846fb7a8b,
        },
    },
    Row {
        x: Words {
            l0: 0xdc1e6828ed8a6e19,
            l1: 0x33fc23364189d9c7,
            l2: 0x026f8fe2671c39bc,
            l3: 0xd40c4ccdbc6f9915,
        },
        y: Words {
            l0: 0xafa135bbf80e75ca,
            l1: 0x12c651a022adff2c,
            l2: 0xc40a04bd4f51ad96,
            l3: 0x04820109bbe4e832,
        },
    },
    Row {
        x: Words {
            l0: 0x3667eb1a7f4c04cc,
            l1: 0x59556621a9404f84,
            l2: 0x71cdf6537eceb50a,
            l3: 0x994a44a69b8335fa,
        },
        y: Words {
            l0: 0xd7faf819dbeb9b69,
            l1: 0x473c5680eed4350d,
            l2: 0xb6658466da44bba2,
            l3: 0x0d1bc780872bdbf3,
        },
    },
    Row {
        x: Words {
            l0: 0xe535f175a1962f91,
            l1: 0x6ed7e061ed58f5a7,
            l2: 0x177aa4c02089a233,
            l3: 0x0dbcb03ae539b413,
        },
        y: Words {
            l0: 0xe3dc424ebb32e38e,
            l1: 0x6472e5ef6806701e,
            l2: 0xdd47ff98814be9ee,
            l3: 0x6b60cfff35ace009,
        },
    },
    Row {
        x: Words {
            l0: 0xb8d3d9319ff91fe5,
            l1: 0x039c4800f0518eed,
            l2: 0x95c376329182cb26,
            l3: 0x0763a43482fc568d,
        },
        y: Words {
            l0: 0x707c04d5383e76ba,
            l1: 0xac98b930824e8197,
            l2: 0x92bf7c8f91230de0,
            l3: 0x90876a0140959b70,
        },
    },
    Row {
        x: Words {
            l0: 0xdb6d96f305968b80,
            l1: 0x380a0913089f73b9,
            l2: 0x7da70b83c2c61e01,
            l3: 0x95fb8394569b38c7,
        },
        y: Words {
            l0: 0x9a3c651280edfe2f,
            l1: 0x8f726bb98faeaf82,
            l2: 0x8010a4a078424bf8,
            l3: 0x296720440e844970,
        },
    },
    Row {
        x: Words {
            l0: 0xdc2306ebfcdbb2b2,
            l1: 0x79527db7ba66f4b9,
            l2: 0xbf639ed67765765e,
            l3: 0x01628c4706b6090a,
        },
        y: Words {
            l0: 0x66eb62f1b957b4a1,
            l1: 0x33cb7691ba659f46,
            l2: 0x2c90d98cf3e055d6,
            l3: 0x7d096ac42f174750,
        },
    },
    Row {
        x: Words {
            l0: 0xc7c6e4d1c4ce250f,
            l1: 0xa3cfa7fd44b81977,
            l2: 0x5a7e384de42f8cb2,
            l3: 0x78ed4fe6e3a7de48,
        },
        y: Words {
            l0: 0xa9231c8ce9e571ca,
            l1: 0x55912064d0f5bb2a,
            l2: 0x9c03344b75554fad,
            l3: 0xb12347993e909dfb,
        },
    },
    Row {
        x: Words {
            l0: 0x86f04d3b51f9c391,
            l1: 0xc16d0c52a48a4ddd,
            l2: 0xfc88362a891ea186,
            l3: 0xe8218ad07de96a54,
        },
        y: Words {
            l0: 0x2c735ac12f33af7a,
            l1: 0x05af456a06620ae8,
            l2: 0xde3ec728c30a96a0,
            l3: 0xfd59d7eb9a8f62d9,
        },
    },
    Row {
        x: Words {
            l0: 0x8732d5cd6a93954d,
            l1: 0xc35d34e70dd71fab,
            l2: 0xb2cdb039f99c55fe,
            l3: 0x031195d5bb4a44b9,
        },
        y: Words {
            l0: 0xbaa37f5d08a660c8,
            l1: 0xbb7047347b57df81,
            l2: 0x440dec9ece0f8c32,
            l3: 0xf66904b1400c9463,
        },
    },
    Row {
        x: Words {
            l0: 0x9e5da11cc5e79347,
            l1: 0x87986a54361bfe25,
            l2: 0xc856868891e9ae09,
            l3: 0x49d3ad05548efa2a,
        },
        y: Words {
            l0: 0x987b0687f4eb5cf6,
            l1: 0x9bea0d0f2655d14f,
            l2: 0x2126ac553a8dd126,
            l3: 0x6d37b1fa546fbecc,
        },
    },
    Row {
        x: Words {
            l0: 0x7c5a2a14f58a379a,
            l1: 0x7263de1539f76b81,
            l2: 0x681d690f2b3a8c59,
            l3: 0x100392dc78c04937,
        },
        y: Words {
            l0: 0x07e5e8e85bef953a,
            l1: 0xd11ae42dad0182e4,
            l2: 0x9cc6e22a27c9a2ea,
            l3: 0xc6793ad2e6e2f3b1,
        },
    },
    Row {
        x: Words {
            l0: 0xf19f382e92aa7864,
            l1: 0x49c7cb94fc05804b,
            l2: 0xf94aa89b40750d01,
            l3: 0xdd421b5d4a210364,
        },
        y: Words {
            l0: 0x56cd001e39df3672,
            l1: 0x030a119fdd4af1ec,
            l2: 0x11f947e696cd0572,
            l3: 0x574cc7b293786791,
        },
    },
    Row {
        x: Words {
            l0: 0x7331369679c1e3b1,
            l1: 0xb1ee4879a360fb55,
            l2: 0xeb5d0c75f38fae9c,
            l3: 0xc3b025a015b15144,
        },
        y: Words {
            l0: 0x33ad53540dc40604,
            l1: 0x1ba0cb8c9c5d2e6a,
            l2: 0x0368eb1f2e4283e1,
            l3: 0x6fcd0cbb809a06f2,
        },
    },
    Row {
        x: Words {
            l0: 0xae8f8fe1eeb03d1a,
            l1: 0x2b34a7dc096fb852,
            l2: 0x794922ef17e29b1a,
            l3: 0xb2dacdf66ef82fce,
        },
        y: Words {
            l0: 0xdb8dcc81f42911ee,
            l1: 0xb871ba63e405ca09,
            l2: 0xa66d92525e82d5b3,
            l3: 0xc39725521af82878,
        },
    },
    Row {
        x: Words {
            l0: 0x46ce85a9e25a441e,
            l1: 0x294b12e1ca1b04e0,
            l2: 0xb00eea8a5d34f708,
            l3: 0xd176448e35b23e27,
        },
        y: Words {
            l0: 0x5ce885392bb80ef9,
            l1: 0x0c45e52db3bfffc8,
            l2: 0x77c52d75519978d1,
            l3: 0x0a48558f2fa1bd2f,
        },
    },
    Row {
        x: Words {
            l0: 0x616d2c02fb760095,
            l1: 0xcfa8ca0e2a7aa6ab,
            l2: 0xf123716223af72e0,
            l3: 0xa22f8fbea42fd1f6,
        },
        y: Words {
            l0: 0x5072758b78f3d040,
            l1: 0x7be19f0ded4437a8,
            l2: 0xe79807a770456a7e,
            l3: 0x24a1bde1d0c2302d,
        },
    },
    Row {
        x: Words {
            l0: 0xcd331464c89bdd46,
            l1: 0x285bed3c21848f49,
            l2: 0x7c703717cd1823b4,
            l3: 0x1558fe4c7ef5b48a,
        },
        y: Words {
            l0: 0x19c6602050eaed5f,
            l1: 0x3fc6e661d47fa3cb,
            l2: 0xee4826a9937e1ba3,
            l3: 0x9b3b040493b83e45,
        },
    },
    Row {
        x: Words {
            l0: 0x0a2193bfc266f85c,
            l1: 0x719a87be5a0ec9ce,
            l2: 0x9c30c6422b2f9c49,
            l3: 0xdb15e4963d5baeb1,
        },
        y: Words {
            l0: 0x83c3139be0d37321,
            l1: 0x4788522b2e9fdbb2,
            l2: 0x2b4f0c7877eb94ea,
            l3: 0x854dc9d595105f9e,
        },
    },
    Row {
        x: Words {
            l0: 0xade6af11a6ab1ecf,
            l1: 0x7e96610365013b3a,
            l2: 0x711f8b7f7b5065a4,
            l3: 0xc0e78a3897536f3f,
        },
        y: Words {
            l0: 0x48b4389c464423d3,
            l1: 0x407bffa1b2011371,
            l2: 0xea2240ccef96b473,
            l3: 0xf8bdf2ea8474d0c8,
        },
    },
    Row {
        x: Words {
            l0: 0xa40206d330ff0e92,
            l1: 0xdd306e2a05176f8b,
            l2: 0x58f6428165f89e14,
            l3: 0x5ed556aae89327fc,
        },
        y: Words {
            l0: 0xc2b1870af8321bb8,
            l1: 0x097a54ff99227b16,
            l2: 0xd07370c450128375,
            l3: 0xb75df5ec191a421f,
        },
    },
    Row {
        x: Words {
            l0: 0x492bdc0752b3e584,
            l1: 0x35ff9aa8b5f86a2c,
            l2: 0x2074213db27de573,
            l3: 0xc0bfffc45263832a,
        },
        y: Words {
            l0: 0x2429c22a1d49c605,
            l1: 0x1b037d75b320ebfb,
            l2: 0x52b6a1739220f428,
            l3: 0x2995919ca4cd2660,
        },
    },
    Row {
        x: Words {
            l0: 0xd3a5d81fc63d5e79,
            l1: 0x8e9d0af402ba3183,
            l2: 0xb097c711165c6e4c,
            l3: 0xe0beeb1aebff18d3,
        },
        y: Words {
            l0: 0xfe657f130801937b,
            l1: 0xa02dbc426fe5b29d,
            l2: 0xcbdbfdb9cf290d1f,
            l3: 0x7acf4419e85bc145,
        },
    },
    Row {
        x: Words {
            l0: 0x80ee662fad29cf9c,
            l1: 0x59d18be925a81aef,
            l2: 0xb932d0c175274655,
            l3: 0x8d97fd53554fa366,
        },
        y: Words {
            l0: 0xad5cb247cd789d17,
            l1: 0x41a471e4e93046f2,
            l2: 0x4976126318fb05ae,
            l3: 0x18f61f3cdef3f99d,
        },
    },
    Row {
        x: Words {
            l0: 0x2c9ee62dc3363a22,
            l1: 0x125d4714ec67199a,
            l2: 0xf87abebf2ab80485,
            l3: 0xcf3086e87a243ca4,
        },
        y: Words {
            l0: 0x5c52b051c64e09dd,
            l1: 0x5e9b16125625aad7,
            l2: 0x0536a39db19c6126,
            l3: 0x97f0013247b64be5,
        },
    },
    Row {
        x: Words {
            l0: 0xb7f1695a43020eec,
            l1: 0x2cd0bab9941a27e9,
            l2: 0x10b429a2811a47eb,
            l3: 0x2f83a889ca881f6c,
        },
        y: Words {
            l0: 0x2563c590f683e890,
            l1: 0x67f9ba802e45cbb1,
            l2: 0xdf4741a71b99ec5f,
            l3: 0x4cb3c135b6f36034,
        },
    },
    Row {
        x: Words {
            l0: 0x3646b0dd7e1ee314,
            l1: 0xef617e0025af7677,
            l2: 0x36bf2f65ea65641a,
            l3: 0xabfc8457b5e11eff,
        },
        y: Words {
            l0: 0x998dfac18f1192b6,
            l1: 0xce91ee270142811b,
            l2: 0xbb0066ae1f282369,
            l3: 0x159751e2e1cbaebe,
        },
    },
    Row {
        x: Words {
            l0: 0xdd5c2b8142a18dc1,
            l1: 0x783b9ba6744a6528,
            l2: 0x23fb74270b4af06e,
            l3: 0xa9ea1b80f80e4b90,
        },
        y: Words {
            l0: 0x559759f6edca6f38,
            l1: 0x4a2b5ed57defe51b,
            l2: 0x9a9f04f0e8aeaf7d,
            l3: 0xe6c93b31cefdb61d,
        },
    },
    Row {
        x: Words {
            l0: 0x516329ff7b4d8b2c,
            l1: 0xb856664a2d4b409b,
            l2: 0x041252997f6b0670,
            l3: 0x2bd0204360826caa,
        },
        y: Words {
            l0: 0x010e522661ddbcb1,
            l1: 0xcd07bc34c235d56c,
            l2: 0xa8f439ab06e58e3e,
            l3: 0xaf490825d5cff157,
        },
    },
    Row {
        x: Words {
            l0: 0x7d81fd488418cae4,
            l1: 0xabeee3e9369a6067,
            l2: 0x1707165bb939f40f,
            l3: 0x948fb3f76932e631,
        },
        y: Words {
            l0: 0x005a1dffeabd468e,
            l1: 0xbdf176108c7f9dba,
            l2: 0xed5cf82dc911847c,
            l3: 0xd8d37d942785971d,
        },
    },
    Row {
        x: Words {
            l0: 0xc1ee6264a7eabe67,
            l1: 0x62d51e29fd54487d,
            l2: 0x3ea123446310eb5a,
            l3: 0xbd88aca74765b805,
        },
        y: Words {
            l0: 0xb7b284be14fb691a,
            l1: 0x640388f83b9fffef,
            l2: 0x7ab49dd209f98f9a,
            l3: 0x7150f87e7211e445,
        },
    },
    Row {
        x: Words {
            l0: 0x9af9d782de992e6e,
            l1: 0x47305b7483e90446,
            l2: 0xf3df44ded7ee64b7,
            l3: 0x8307d5cb55648a4c,
        },
        y: Words {
            l0: 0x5376b018e277280a,
            l1: 0xabff56b525d3fdee,
            l2: 0xad3294fb1c309a59,
            l3: 0xe485b90d49c0b6a1,
        },
    },
    Row {
        x: Words {
            l0: 0xd81ad9386982f865,
            l1: 0x27113bb4ae6a94b8,
            l2: 0x4a39f02bbedd4f47,
            l3: 0x0211de8fd5692705,
        },
        y: Words {
            l0: 0xd587138c63c92f69,
            l1: 0x2354719f6237fc68,
            l2: 0xfa8a5b9b0b46a59f,
            l3: 0x4a70abf75c554ed3,
        },
    },
    Row {
        x: Words {
            l0: 0x9d7127d76294ba47,
            l1: 0xa8a38bc31487c526,
            l2: 0xe4c8417839093801,
            l3: 0xaee309e543ae4336,
        },
        y: Words {
            l0: 0xd4b127399359250d,
            l1: 0x9929ad4e8f48bb12,
            l2: 0x4a72075d7f73442a,
            l3: 0xd15428592faab294,
        },
    },
    Row {
        x: Words {
            l0: 0x64cfdc70d9453d29,
            l1: 0x0aeaca9afd36b1af,
            l2: 0x4a278686e1639607,
            l3: 0x0581b4711fdf2498,
        },
        y: Words {
            l0: 0x82290e253d61f6d2,
            l1: 0x20b021c3df219dc5,
            l2: 0xff6c1a78f9a2852f,
            l3: 0x435ac466954ffbb3,
        },
    },
    Row {
        x: Words {
            l0: 0xc82a7aefd2df5e7a,
            l1: 0x955ef205d59848eb,
            l2: 0xc87bdb8203d41796,
            l3: 0xbf87ea83037278d9,
        },
        y: Words {
            l0: 0xc5825a638719aea8,
            l1: 0xc00286d964135771,
            l2: 0xf8ea79eadfa99607,
            l3: 0x1001f8d7dd85aa7b,
        },
    },
    Row {
        x: Words {
            l0: 0x263e039bb308cc40,
            l1: 0x6684ad762b346fd2,
            l2: 0x9a127f2bcaa12d0d,
            l3: 0x76a8f9fea974291f,
        },
        y: Words {
            l0: 0xc802049b68aa19e4,
            l1: 0x65499c990c5dbba0,
            l2: 0xee1b1cb5344455a1,
            l3: 0x3f293fda2cd6f439,
        },
    },
    Row {
        x: Words {
            l0: 0x802b8d2333e12b70,
            l1: 0x6d490a4b19dd329b,
            l2: 0x14f356cc6abc354d,
            l3: 0x11eddf7fd0a0da0d,
        },
        y: Words {
            l0: 0x1e208328d87fd1d8,
            l1: 0xfd2f4f8cfd025813,
            l2: 0x03b48cc47c29bca2,
            l3: 0x3f2a78b3241a2b71,
        },
    },
    Row {
        x: Words {
            l0: 0xdc90323bafceb64d,
            l1: 0xda8cdb78397e43f4,
            l2: 0xee848e1d2566805e,
            l3: 0xf1ae5380578181c7,
        },
        y: Words {
            l0: 0x2dc7b8e69c70c77c,
            l1: 0x85f4d9c45b68b7e7,
            l2: 0x84577f1f3260b767,
            l3: 0x1fbd470f53cf3e69,
        },
    },
    Row {
        x: Words {
            l0: 0xd5192c88589b69ff,
            l1: 0xcc8715abbc82a095,
            l2: 0x74b44206ee3751be,
            l3: 0xa6eecf308794885e,
        },
        y: Words {
            l0: 0xa05a7aa8dd0ce3b4,
            l1: 0xa3f98377daa4c864,
            l2: 0x6b5df55fe390da5b,
            l3: 0xe9f04cd324c2e311,
        },
    },
    Row {
        x: Words {
            l0: 0x2d037bf83f9432b4,
            l1: 0xb1f1abb66a7b4371,
            l2: 0x650522fd4a9a3b17,
            l3: 0xbc438ae1a4e65b07,
        },
        y: Words {
            l0: 0x31b57ea284693c04,
            l1: 0x7ab58a3f75503e46,
            l2: 0x03a3c2c7b98ff4b3,
            l3: 0x4a673fe054fcd65a,
        },
    },
    Row {
        x: Words {
            l0: 0xb9a17db9bf61fec5,
            l1: 0xfe49233161c52cf8,
            l2: 0xf7ac46733fe90a2f,
            l3: 0x55401274eb1385f3,
        },
        y: Words {
            l0: 0xa5db852c23fd068f,
            l1: 0xadb9e9b685bac6b7,
            l2: 0x6aa068c230548cf4,
            l3: 0x63be9e64a1715422,
        },
    },
    Row {
        x: Words {
            l0: 0xb7a96e0a4ea6fdf7,
            l1: 0xbbe914d3b99cd026,
            l2: 0x6a610374c569a602,
            l3: 0xe9b1c23914da499e,
        },
        y: Words {
            l0: 0xb5f6f0feadc19a99,
            l1: 0x731251826f21687c,
            l2: 0x5a8a14644be77793,
            l3: 0x94ce9e0adba8bfc7,
        },
    },
    Row {
        x: Words {
            l0: 0x41a6fe768f9b4748,
            l1: 0xf5284782e9f60f18,
            l2: 0xce33e49cdd3dac5c,
            l3: 0x0fcaec0ffecf6fed,
        },
        y: Words {
            l0: 0xca1ce130a54edfc4,
            l1: 0x6445fbcd5bc92aa3,
            l2: 0xf3d348f820fe78e3,
            l3: 0xa2776d9f8417c98f,
        },
    },
    Row {
        x: Words {
            l0: 0x564bdda6c71f8d02,
            l1: 0xd0a875e919f7f72c,
            l2: 0x57670e41bf619241,
            l3: 0xf51ec8724c3c386f,
        },
        y: Words {
            l0: 0x00aec19ee8bf7d17,
            l1: 0x5df79360286166f3,
            l2: 0xa6fae60930a4f924,
            l3: 0x1429b1f8ae1d3ed8,
        },
    },
    Row {
        x: Words {
            l0: 0x82d0020682c4bd6a,
            l1: 0x90ee46554c2a6235,
            l2: 0x35d2293fc7ac3efa,
            l3: 0x1d6de36b734fc1b8,
        },
        y: Words {
            l0: 0x946ac3bfcff75858,
            l1: 0xffccf5e161217dee,
            l2: 0x75aef88a77b9d084,
            l3: 0x6ba92bcade5a0cc1,
        },
    },
    Row {
        x: Words {
            l0: 0xde6ddcb77b371390,
            l1: 0xcb11125c02a9ba44,
            l2: 0xc08ec1602b1d28fd,
            l3: 0x680d5abf65e03a86,
        },
        y: Words {
            l0: 0xd5ec7bbbf5327839,
            l1: 0xc87057ca3bce7fe5,
            l2: 0x4e346db071cbfc97,
            l3: 0xd3d6d111ee9e512f,
        },
    },
    Row {
        x: Words {
            l0: 0xc4c398cc1e628b51,
            l1: 0x750c11bbc098aefa,
            l2: 0xb81f9fb1279df6ff,
            l3: 0x7145405dff1765ec,
        },
        y: Words {
            l0: 0x3c3d861d83aae16f,
            l1: 0x137218257bc27ef7,
            l2: 0x5cbb069b03fe8fac,
            l3: 0x262f03eb0757aaea,
        },
    },
    Row {
        x: Words {
            l0: 0x2ca0ba9c3796f4c7,
            l1: 0x3571e4d1592ce334,
            l2: 0x28f9cdebe9f6e877,
            l3: 0xee206023efce1a70,
        },
        y: Words {
            l0: 0xb2159e08b76369dc,
            l1: 0x2754e4260a7f687c,
            l2: 0xe008039e02de2ff1,
            l3: 0xccd7e9418ea700c1,
        },
    },
    Row {
        x: Words {
            l0: 0x2871263f72371e17,
            l1: 0x14d147984d7df1ff,
            l2: 0xd1a8678742e1cbf4,
            l3: 0x9d873705000a079b,
        },
        y: Words {
            l0: 0x3a7f4ad5e01ffe00,
            l1: 0x3633966c70094e6a,
            l2: 0x08e545f1b13e2b49,
            l3: 0x0d66cfc94b5d416d,
        },
    },
    Row {
        x: Words {
            l0: 0xaec63acbdd10edd0,
            l1: 0xfd4f61e491ae8d13,
            l2: 0xe7b092174df861f4,
            l3: 0x3720b2475548de20,
        },
        y: Words {
            l0: 0xaf419847ebf3df78,
            l1: 0xe7229d8956cd660d,
            l2: 0x0cd622baeb879899,
            l3: 0x5fdaee391cab12c7,
        },
    },
    Row {
        x: Words {
            l0: 0x76fbedb5a463fbad,
            l1: 0xb1fc8c8c23fbbe6e,
            l2: 0x45ae78ba39dcab99,
            l3: 0xe7009ee6652405a9,
        },
        y: Words {
            l0: 0xb9a8fc5f8c0531e8,
            l1: 0x5761490f7f000956,
            l2: 0x270c706c6e4840f1,
            l3: 0x798ca99e4ef37e3c,
        },
    },
    Row {
        x: Words {
            l0: 0xd87f4ae086653aa8,
            l1: 0x327dac318072f08d,
            l2: 0x098f37bb0832c416,
            l3: 0x0cf804d77a9b6a20,
        },
        y: Words {
            l0: 0x4b9c5438a67e2173,
            l1: 0x1cc0d4cea23afa67,
            l2: 0x270adcc57148b135,
            l3: 0xf9af0acd904d4731,
        },
    },
    Row {
        x: Words {
            l0: 0x6a9505760a99cbca,
            l1: 0x94e258f604a428f2,
            l2: 0x45ab5a4d7832ba0c,
            l3: 0x71704d008938c167,
        },
        y: Words {
            l0: 0xdb97ab0ef88b8b70,
            l1: 0x56feb92ec00eb207,
            l2: 0xe70352687d367d80,
            l3: 0x65000c24c7973a41,
        },
    },
    Row {
        x: Words {
            l0: 0xa125e6c1b7ebcb88,
            l1: 0x3289e86e10ec0d40,
            l2: 0xcc3a5ecb98353869,
            l3: 0x734e0d078a2b0d3a,
        },
        y: Words {
            l0: 0xe0d92e9a51933360,
            l1: 0xfa6bcdb1786076b9,
            l2: 0xd13cca90747f19ec,
            l3: 0x61d8209d49f3a53d,
        },
    },
    Row {
        x: Words {
            l0: 0x751e03f0216f7c55,
            l1: 0x18849f8ebc30d62c,
            l2: 0x7afec8bb9b4e920c,
            l3: 0x08e2f429f216dc99,
        },
        y: Words {
            l0: 0x5e5ddf821d6cc33e,
            l1: 0x97b596a14d7bf847,
            l2: 0x96b984140a9f8671,
            l3: 0xbc0eec86924dd154,
        },
    },
    Row {
        x: Words {
            l0: 0xad19e039119f6cab,
            l1: 0xf15b920fa8dfce56,
            l2: 0x8a2627c4851b5bc7,
            l3: 0x7c3ff661d8ecca6e,
        },
        y: Words {
            l0: 0xb9dd2bf2d5f5b5bf,
            l1: 0x56b76c57baa43b27,
            l2: 0xdc8df855fe2f4937,
            l3: 0xe95dd9d8889821b2,
        },
    },
    Row {
        x: Words {
            l0: 0x87f9793bc9826344,
            l1: 0x4b3de89bb2f5f79c,
            l2: 0xc9f08a5659cb1b6e,
            l3: 0xd8f1fc5f6a92b9aa,
        },
        y: Words {
            l0: 0x86357f9eb412595e,
            l1: 0x53c30bbe65b80f16,
            l2: 0xf06c2c8c70549a57,
            l3: 0xa9c8a4b42b9157da,
        },
    },
    Row {
        x: Words {
            l0: 0x08e4c4901b620dc4,
            l1: 0x55a3bb1ad9699e92,
            l2: 0x7890e8d547968833,
            l3: 0xbbdbec7d79af29b1,
        },
        y: Words {
            l0: 0x92750de73e51e1bc,
            l1: 0x50cf6d11ad91a350,
            l2: 0x9dc33392fa67285c,
            l3: 0x2cdf7f854480ffe3,
        },
    },
    Row {
        x: Words {
            l0: 0x24c00de93f5f68a6,
            l1: 0xf8f1d8415512ec1c,
            l2: 0x24869d65bb07ad54,
            l3: 0x4977379654d7a19e,
        },
        y: Words {
            l0: 0x04f357d1f061cede,
            l1: 0x741bf80a03bc88e6,
            l2: 0x6cf96715c527a656,
            l3: 0xc9c4d63998e59b62,
        },
    },
    Row {
        x: Words {
            l0: 0x87af199e6cc47305,
            l1: 0x062afb7c1e314dde,
            l2: 0x2be22ba0f3a49fb4,
            l3: 0x6ed0b988157b7f56,
        },
        y: Words {
            l0: 0x8162cf502d653fd9,
            l1: 0x17d29c64877b7497,
            l2: 0xd7e814380f67b514,
            l3: 0xfedf1014fe6ee703,
        },
    },
    Row {
        x: Words {
            l0: 0x6ebdb7bcd0303ba4,
            l1: 0x094e7ddf4f6ab73a,
            l2: 0xb62aaf7c37e7454e,
            l3: 0x9c7ea21245a2473f,
        },
        y: Words {
            l0: 0xca76e7549488d036,
            l1: 0x9a278a9daaa03497,
            l2: 0x48cd158b2c1eb541,
            l3: 0xd007ec78a47a7152,
        },
    },
    Row {
        x: Words {
            l0: 0x14d7251a8c03e3f4,
            l1: 0xd71602d5b0e5fe20,
            l2: 0x27d2bf4f683b30d1,
            l3: 0xe1a8d418f77f10e1,
        },
        y: Words {
            l0: 0xa4941a1e76a0ead7,
            l1: 0xff318484da0a4996,
            l2: 0xaaf4d4e193394872,
            l3: 0xae839cd80e99505c,
        },
    },
    Row {
        x: Words {
            l0: 0x536eeea92f4ff97a,
            l1: 0xd183a961caf64cbd,
            l2: 0xbf357e0c9358983a,
            l3: 0x62280f9a573fbfa8,
        },
        y: Words {
            l0: 0x001da1b77e9176b3,
            l1: 0x6ea945bdb1901d3d,
            l2: 0x4c6b9954bd51f905,
            l3: 0x7aa3b3ccb2a104b2,
        },
    },
    Row {
        x: Words {
            l0: 0x62ea859803b58b02,
            l1: 0x5a71497198a5ea8c,
            l2: 0x1783d1b6917e4725,
            l3: 0x2d7ca4d8f1e35487,
        },
        y: Words {
            l0: 0x3f69b4d49b4d4324,
            l1: 0xda04cc898e17ff54,
            l2: 0x5870726c16e3e02a,
            l3: 0xaeb9041c69e788c5,
        },
    },
    Row {
        x: Words {
            l0: 0x10f264bc85fc00a2,
            l1: 0x0a10ed1576d7996d,
            l2: 0x49b1dfca7f141275,
            l3: 0xd8c0472156db1266,
        },
        y: Words {
            l0: 0x43dfabf3cd768437,
            l1: 0x58d85051e4dd905a,
            l2: 0x9b94c4ad4c99e439,
            l3: 0x8448ecae901289fe,
        },
    },
    Row {
        x: Words {
            l0: 0xaab54cfc93740130,
            l1: 0xf72dab6d225733fa,
            l2: 0x04b76d2d1ed32559,
            l3: 0xa9fe2396bb85b9cb,
        },
        y: Words {
            l0: 0x128b0d24bf2219f0,
            l1: 0x2292393b579f3ce2,
            l2: 0x51dc5fac145ff0d5,
            l3: 0xb16d6af8c3febbc1,
        },
    },
    Row {
        x: Words {
            l0: 0x9c9635be52bf127a,
            l1: 0x519a47b4807a9d28,
            l2: 0x9a7d703660ab52e9,
            l3: 0x6941195b752838c3,
        },
        y: Words {
            l0: 0x60ffbe2e70da613f,
            l1: 0x8459f57052761718,
            l2: 0x5f153f56aa36de2d,
            l3: 0x91a4ea6d215215f6,
        },
    },
    Row {
        x: Words {
            l0: 0x36e84bb6dee35b41,
            l1: 0x70e9016cdddfd928,
            l2: 0x6072a061ae619f28,
            l3: 0x15fe6a86904a36cf,
        },
        y: Words {
            l0: 0x9ab6968bf6005965,
            l1: 0xfd1c4a970ad602d0,
            l2: 0xd0a8879244f403f2,
            l3: 0x76759223abe3c14b,
        },
    },
    Row {
        x: Words {
            l0: 0x63c5cb817a2ad62a,
            l1: 0x7ef2b6b9ac62ff54,
            l2: 0x3749bba4b3ad9db5,
            l3: 0xad311f2c46d5a617,
        },
        y: Words {
            l0: 0xb77a8087c2ff3b6d,
            l1: 0xb46feaf3367834ff,
            l2: 0xf8aa266d75d6b138,
            l3: 0xfa38d320ec008188,
        },
    },
    Row {
        x: Words {
            l0: 0x45d8fadf89a6b23c,
            l1: 0x057dee066fffbbfe,
            l2: 0x6dd5757b4774e5e2,
            l3: 0xb44267fa47607091,
        },
        y: Words {
            l0: 0xd254ac6fac739807,
            l1: 0xb29bea93e4097eac,
            l2: 0xde07a886ce2b1765,
            l3: 0xa326800a6561e516,
        },
    },
    Row {
        x: Words {
            l0: 0x9967cb4a1e379d0a,
            l1: 0x7a6357d9e1e6add9,
            l2: 0xca3974e8779e6cac,
            l3: 0x2f169029856196f0,
        },
        y: Words {
            l0: 0xe004869e0f737805,
            l1: 0x07f284a31efef15f,
            l2: 0x46102b446588ead4,
            l3: 0x0f28b78fcbd1dc45,
        },
    },
    Row {
        x: Words {
            l0: 0x44359ac0ee931637,
            l1: 0xd7af3ac7bef60c41,
            l2: 0xd451e48e5c9a5a00,
            l3: 0x879a858ede205114,
        },
        y: Words {
            l0: 0xd32345065cfd0b21,
            l1: 0x4d7bea68794a5062,
            l2: 0xa4f7b9d729fc3993,
            l3: 0xe838260e4e5ea446,
        },
    },
    Row {
        x: Words {
            l0: 0xd27edf795a8f896b,
            l1: 0xe7cf9e5d5a852846,
            l2: 0xba5be7bd9b86fd86,
            l3: 0xc1e44a11729ff5c6,
        },
        y: Words {
            l0: 0x07ca3e3a1e2649a6,
            l1: 0x0031203b85096f79,
            l2: 0xe1dd07026abc2bb3,
            l3: 0x06d58594d48cfa00,
        },
    },
    Row {
        x: Words {
            l0: 0x97484c32e4d4b063,
            l1: 0xbb397e446873506e,
            l2: 0x233f2018e0c682b4,
            l3: 0xff6bcbc968d12590,
        },
        y: Words {
            l0: 0x97f470fd2357e496,
            l1: 0x5c523069bcb4b614,
            l2: 0xea33b10eea506661,
            l3: 0xc1f96ddf04b09a83,
        },
    },
    Row {
        x: Words {
            l0: 0xb4e88695b28239b9,
            l1: 0x8c587ac27e74bd40,
            l2: 0x36d0f005bca8727a,
            l3: 0x3632aa737464fbf0,
        },
        y: Words {
            l0: 0x568ed6339b369f08,
            l1: 0x1d89e750c4881e96,
            l2: 0x41a2b4141bccec2d,
            l3: 0xb961f44aec598b6c,
        },
    },
    Row {
        x: Words {
            l0: 0x9e57d734c45e9796,
            l1: 0x153be80d1ab41bf5,
            l2: 0xa3e0c36555031caa,
            l3: 0x52cf34eba3294d40,
        },
        y: Words {
            l0: 0x17832c7dff583ebf,
            l1: 0xaaf7036866e40faa,
            l2: 0x19ffe1c87f4b0fa6,
            l3: 0xacb5d3bd9a663404,
        },
    },
    Row {
        x: Words {
            l0: 0x333f6134cdbb159e,
            l1: 0x7aabfea0c814272a,
            l2: 0xde5a0a9a7d57774f,
            l3: 0x480136ca4303f9f2,
        },
        y: Words {
            l0: 0x78c8ee22546954e0,
            l1: 0xba7407ac301bed93,
            l2: 0xc21a6ecdc4fefb70,
            l3: 0xbb968b77ab9d97c1,
        },
    },
    Row {
        x: Words {
            l0: 0xb7fecb5e72d4ed33,
            l1: 0x20a22a805165f53a,
            l2: 0x2cc11d879e158e90,
            l3: 0x9e9cba4dba2cce03,
        },
        y: Words {
            l0: 0x1bbe8b81a018c44b,
            l1: 0xbc42febd20bd77a8,
            l2: 0x952b4d839cea765f,
            l3: 0x64e5294358c0dbe7,
        },
    },
    Row {
        x: Words {
            l0: 0x6224906b6b14f752,
            l1: 0xed60e71896bb1ee8,
            l2: 0x55a6c46495b038d9,
            l3: 0x5fe4afc1ca840638,
        },
        y: Words {
            l0: 0x45959d48303c71e2,
            l1: 0x946bf974b56967e2,
            l2: 0x230810899b2df1c4,
            l3: 0x84de53466720aa3f,
        },
    },
    Row {
        x: Words {
            l0: 0x123cd8a509b785f9,
            l1: 0x856402511edd29cd,
            l2: 0xb60e95ac66e9882a,
            l3: 0xf9107ec90f43caaa,
        },
        y: Words {
            l0: 0x8f48fbb98b6601df,
            l1: 0x3afdd0f11ceb4b35,
            l2: 0x0a804b08f470ceec,
            l3: 0x04310217b33d1017,
        },
    },
    Row {
        x: Words {
            l0: 0x80de24b53267400b,
            l1: 0xd83306431ff15b83,
            l2: 0x8a426d98902dd58b,
            l3: 0x14b9f481ebab3f60,
        },
        y: Words {
            l0: 0x5b1872c0f3497fe8,
            l1: 0xa6474c9856963f5b,
            l2: 0xe787e99543eae2d8,
            l3: 0x7fd49e25a193c1ae,
        },
    },
    Row {
        x: Words {
            l0: 0xe7319a1604954b44,
            l1: 0x039c1b75c154a104,
            l2: 0x58a557005a470317,
            l3: 0xd3608e5e15e86af3,
        },
        y: Words {
            l0: 0x865b9c5b5925d28d,
            l1: 0x92f3bdeb2887e5eb,
            l2: 0x9ad29e49646bfa23,
            l3: 0x1abf07cae2c90eac,
        },
    },
    Row {
        x: Words {
            l0: 0xa86165f4f9b5f27b,
            l1: 0x4bd4962b659bfbc6,
            l2: 0x4e33b3c783f9ac63,
            l3: 0x0d2e78794eb82e67,
        },
        y: Words {
            l0: 0xb02cac9da00989f7,
            l1: 0xb61a26db43247e6d,
            l2: 0x79a28b2fdb9165b4,
            l3: 0x8f2667fd7b74cc84,
        },
    },
    Row {
        x: Words {
            l0: 0x3f21dacbfeee0d22,
            l1: 0x38cc5a162867812f,
            l2: 0xfb482bb8863b12d5,
            l3: 0x4838f777b417b0f3,
        },
        y: Words {
            l0: 0xd0a0163f5403b490,
            l1: 0xfed783986e3636a5,
            l2: 0xfed128b6c8164faa,
            l3: 0xbc0916804ff653a7,
        },
    },
    Row {
        x: Words {
            l0: 0x11ba0b8158654feb,
            l1: 0x83d0c099c40973c6,
            l2: 0x4abb178bc0af37ce,
            l3: 0x18b621e8bd1662ab,
        },
        y: Words {
            l0: 0x77f15c29db878b55,
            l1: 0x8716f0781bc0b40f,
            l2: 0x475f05075a27182c,
            l3: 0xc039bab46c77b89e,
        },
    },
    Row {
        x: Words {
            l0: 0x99af5cfefe873080,
            l1: 0xbb41a9b517edeaf0,
            l2: 0x6448d7bdac761ea1,
            l3: 0xca5dc1a02219af0a,
        },
        y: Words {
            l0: 0x7508b4d10ba7df53,
            l1: 0x4186f17ae51252d8,
            l2: 0x009ffd7cae9a0019,
            l3: 0x52de55f86b32112d,
        },
    },
    Row {
        x: Words {
            l0: 0x3e2af4775e19934d,
            l1: 0xa1360d72ccd90157,
            l2: 0x145e370ea7a2008c,
            l3: 0x8880d5d3f7a42942,
        },
        y: Words {
            l0: 0x0245b7e1d7f845b9,
            l1: 0xf92a24ee36928871,
            l2: 0xb3e4bf8523e0e22b,
            l3: 0xddd7519a30f55150,
        },
    },
    Row {
        x: Words {
            l0: 0xcab32d59bb31fe40,
            l1: 0x875cf0f53893ec5b,
            l2: 0x41a4d820a3d14ecc,
            l3: 0xcc3023737bb6f782,
        },
        y: Words {
            l0: 0xf40f9faa82e13276,
            l1: 0x207de89e8a75c2a6,
            l2: 0xa3f2483c9d371c05,
            l3: 0x7d5c6592c8588f2a,
        },
    },
    Row {
        x: Words {
            l0: 0xd6210031576f99a4,
            l1: 0xd7e7154b163b9d63,
            l2: 0x9133c728cf47e0a3,
            l3: 0xd1cfdd457b813e6c,
        },
        y: Words {
            l0: 0xaa0d60cc3621e569,
            l1: 0x4c5c914a06fca960,
            l2: 0xa915b0f028300a54,
            l3: 0xe483bf7c9d1be2c0,
        },
    },
    Row {
        x: Words {
            l0: 0xbfad3818b7c5ae8a,
            l1: 0xefc278a4db8ad0a0,
            l2: 0x43b83bd7159b6e9f,
            l3: 0x0d6905d56096551d,
        },
        y: Words {
            l0: 0xf73cab34323069ef,
            l1: 0x80f4ad4b6eada798,
            l2: 0x3893d4a8ef04ad92,
            l3: 0xa62cfc3fdc7e0d78,
        },
    },
    Row {
        x: Words {
            l0: 0x7ccc0558f0d324e2,
            l1: 0x6bb494bcdc381b1d,
            l2: 0xfb0d5d57ade8bc7a,
            l3: 0x9d644bdc9594adcb,
        },
        y: Words {
            l0: 0xc17ec5d5365a23a1,
            l1: 0xfd25df3a6b520566,
            l2: 0xeafff7986956821d,
            l3: 0xe74029afd9f20eb3,
        },
    },
    Row {
        x: Words {
            l0: 0x02b8ab7500d22061,
            l1: 0x6fc8292b00267f28,
            l2: 0x892717d7b43d01f6,
            l3: 0x0db84b08deab769a,
        },
        y: Words {
            l0: 0x7bce6e253341e324,
            l1: 0x8498b3130aed2186,
            l2: 0x3c3e759e1e3a8b1e,
            l3: 0x413ef0e849e8ecd3,
        },
    },
    Row {
        x: Words {
            l0: 0xcb481253b3fb1e8b,
            l1: 0xd36f9a078e0bb160,
            l2: 0xe2b2edfc58df0e0f,
            l3: 0x283a6fe7179f3b33,
        },
        y: Words {
            l0: 0xeb1a54d3fca3e014,
            l1: 0xff712727ba72b5f7,
            l2: 0x5c7db04331675d87,
            l3: 0x05d30e7627799b86,
        },
    },
    Row {
        x: Words {
            l0: 0x45922aede1b0d9f5,
            l1: 0xe3cec6011d52c62f,
            l2: 0xd9140c37d2cc8869,
            l3: 0xdeac1e2583fe435e,
        },
        y: Words {
            l0: 0xa7f219a5d5065970,
            l1: 0x14bfd6e7f6eac893,
            l2: 0x1c65b6cf87259935,
            l3: 0xf1f815624409735c,
        },
    },
    Row {
        x: Words {
            l0: 0x67c8850eb64afde2,
            l1: 0x045391631b1f6bdf,
            l2: 0xc9c5e91af8850c28,
            l3: 0x2ffe68b6a1107cec,
        },
        y: Words {
            l0: 0xe6bedbd9f506e874,
            l1: 0xad3ed26b139006c3,
            l2: 0xcfc0da908acc335d,
            l3: 0xaf02c98ba4f8e30d,
        },
    },
    Row {
        x: Words {
            l0: 0xa8d342dee31ab219,
            l1: 0x58e56c31231b83b7,
            l2: 0x588a5ac5357f517d,
            l3: 0x9fe3ed111fa78892,
        },
        y: Words {
            l0: 0x7ce350b93a299f46,
            l1: 0xb200d300d96ea7b6,
            l2: 0x13535f43a2ed141b,
            l3: 0x54598b747335dc58,
        },
    },
    Row {
        x: Words {
            l0: 0x15f1ac7df0df4eae,
            l1: 0x8bd3ef7ea4ebe0f6,
            l2: 0xc2090442c3b629d9,
            l3: 0x7a913332a53686db,
        },
        y: Words {
            l0: 0x527f36ac0983407d,
            l1: 0xba7959d1e7ef13c8,
            l2: 0x3140d4b46265b3c3,
            l3: 0xde1514090310fb0c,
        },
    },
    Row {
        x: Words {
            l0: 0xa5cf2f53fae06ebc,
            l1: 0x03e53ec1989e4964,
            l2: 0xcf850164cbe3f981,
            l3: 0x3790d90ab29b5a09,
        },
        y: Words {
            l0: 0xfbdfba2c032f0751,
            l1: 0xa7614b52dfab2ec6,
            l2: 0x0d6285a1e4812729,
            l3: 0x77117650aa964c7a,
        },
    },
    Row {
        x: Words {
            l0: 0x8fd27479bfc9af44,
            l1: 0xe7486d10487a7d3f,
            l2: 0x0984c449f999c0c9,
            l3: 0x4f9f8f19c8e2629d,
        },
        y: Words {
            l0: 0x5c5dbc17fac5d030,
            l1: 0x182cb40b1422b6ee,
            l2: 0xc46ac7e95790637b,
            l3: 0xf58afa577bb90b9b,
        },
    },
    Row {
        x: Words {
            l0: 0x7370cdcfeb6f06d6,
            l1: 0x44aed8c505b860e0,
            l2: 0x6fdd5f8a955ce458,
            l3: 0xc902d5cb6c25882d,
        },
        y: Words {
            l0: 0xa8a4ec69cfe28f37,
            l1: 0x5e025cd92b44ff84,
            l2: 0xbcfe87d283b3f249,
            l3: 0xef54e3fcf9e8dce7,
        },
    },
    Row {
        x: Words {
            l0: 0xc04afa1ae3451a09,
            l1: 0x7cc69103bc117423,
            l2: 0x876be3aa51cf56ee,
            l3: 0xe7577d57ad844a25,
        },
        y: Words {
            l0: 0x266fed8cdb77f341,
            l1: 0xcfa258dc23ae4a2a,
            l2: 0x53a7a98cda782760,
            l3: 0x04b48868ceaf7d4a,
        },
    },
    Row {
        x: Words {
            l0: 0xde2e3b75e4a7de45,
            l1: 0x43064b46e031ec7d,
            l2: 0x1e4d655a15c4e268,
            l3: 0x45f8a63909cdc5ec,
        },
        y: Words {
            l0: 0xf66f0c9cc2fa2cb9,
            l1: 0xf3f67cf95a6a27c2,
            l2: 0x79ff7c51c64e6eaf,
            l3: 0x13a4fb3a128766b5,
        },
    },
    Row {
        x: Words {
            l0: 0x3015905054f65044,
            l1: 0xa1a14f9681d9f534,
            l2: 0x78b310098b92280a,
            l3: 0x09dd6bfeb313decf,
        },
        y: Words {
            l0: 0x8f5c6fb90b2e14e9,
            l1: 0x031f529a5d5957ce,
            l2: 0x43d862ad27ba574f,
            l3: 0x68af0029e0fbadac,
        },
    },
    Row {
        x: Words {
            l0: 0x7c112439562ba952,
            l1: 0xd4a7dad431d0a8ce,
            l2: 0x6cbe139277f1b401,
            l3: 0x8d8a8907d4bd470d,
        },
        y: Words {
            l0: 0x8224fa8f727866ce,
            l1: 0x3fb96a11a34a7265,
            l2: 0x9f872eadbaf2a7a4,
            l3: 0x2734a68e3fd22f28,
        },
    },
    Row {
        x: Words {
            l0: 0xcd4c1db9f94db96e,
            l1: 0x8fd5af5a68fb644d,
            l2: 0x586313669062f6b4,
            l3: 0x2ced07c4b1efb9ef,
        },
        y: Words {
            l0: 0x9d66fa734152c92b,
            l1: 0x58aaf8b11268eca6,
            l2: 0xd2b86f2186e33532,
            l3: 0x86cba00e8f8484d9,
        },
    },
    Row {
        x: Words {
            l0: 0xe91bab76bcc86ad2,
            l1: 0xa5403f8b9c9cef95,
            l2: 0xb963d4f38f067d12,
            l3: 0x5efa9e0f0d2793f6,
        },
        y: Words {
            l0: 0x86b23ba8a76e5e25,
            l1: 0xb15bd9e03affc453,
            l2: 0xf6c0ad805776542f,
            l3: 0x25d026e4145dc30f,
        },
    },
    Row {
        x: Words {
            l0: 0xaaf4c806343cd6d1,
            l1: 0x84a7c5b2100edf93,
            l2: 0x89ae0fa032fefc3d,
            l3: 0xb36263414b5e827c,
        },
        y: Words {
            l0: 0xe7bc798eb3f435f0,
            l1: 0xce72303e26434f7e,
            l2: 0xa39f4bd9b78dd3c7,
            l3: 0x9ef08279f87e88eb,
        },
    },
    Row {
        x: Words {
            l0: 0x25d4d5b50752e7c6,
            l1: 0xc3c9dfb325ae272b,
            l2: 0x480012da1bc27c04,
            l3: 0xcaefff38abd77d0f,
        },
        y: Words {
            l0: 0x95294ff5bf975acb,
            l1: 0xda28f6903bd5f9b9,
            l2: 0x13e62404489dca02,
            l3: 0x9ef2c4917e92271e,
        },
    },
    Row {
        x: Words {
            l0: 0xadb6a52fbc872bb2,
            l1: 0xf07ae02508b8f1ec,
            l2: 0x1ebfc86c9d6e5cb1,
            l3: 0x6c7f3aa129777d4d,
        },
        y: Words {
            l0: 0x229815ffb1afed8d,
            l1: 0x3dcc802477057e03,
            l2: 0x79c323a4c6d0baa2,
            l3: 0x1a5091ee7ae6f52d,
        },
    },
    Row {
        x: Words {
            l0: 0x4c642278cde85d86,
            l1: 0x29cac5da84af5d69,
            l2: 0x2cbf3bea9ff7a057,
            l3: 0x3ccf314e05a3ed0d,
        },
        y: Words {
            l0: 0x4a2cdbc7483911e2,
            l1: 0xd39202155f0a60e7,
            l2: 0x4eff5a871a2de65b,
            l3: 0x9d3a9565e4f3d2a1,
        },
    },
    Row {
        x: Words {
            l0: 0x5b193e1ffc72e688,
            l1: 0x44a6a8b454a3d1fa,
            l2: 0x639f76312c7ebe4c,
            l3: 0x1649cdd6c1f93a37,
        },
        y: Words {
            l0: 0x3464c93da334494c,
            l1: 0xb20afe655e505e25,
            l2: 0xc159b1e722146b93,
            l3: 0xa1778f20449ac9a3,
        },
    },
    Row {
        x: Words {
            l0: 0x4a2e77a8f43dddcb,
            l1: 0xeb62ec3f800a4b6b,
            l2: 0xf99c4406fd357099,
            l3: 0x293394d37948e690,
        },
        y: Words {
            l0: 0xba27dd7466f61b38,
            l1: 0xa5b23d71492b02f9,
            l2: 0x1c98d5943ed6bbd2,
            l3: 0xec0d43029e46561c,
        },
    },
    Row {
        x: Words {
            l0: 0x6629d7f2c55f1f8c,
            l1: 0x63903bb559f69e2d,
            l2: 0xdce26a8db407b541,
            l3: 0x44a30507143fdfca,
        },
        y: Words {
            l0: 0xb78c6a3a888ccd77,
            l1: 0x6f388cf968303b6c,
            l2: 0xeeace5b774177da0,
            l3: 0xc8e7f75cdf211dd1,
        },
    },
    Row {
        x: Words {
            l0: 0xe4e632a472f86362,
            l1: 0x1b7672690157eb61,
            l2: 0x090dc481cc296977,
            l3: 0x5b5eb3a4878085c8,
        },
        y: Words {
            l0: 0x4562fda0ea981b91,
            l1: 0x29c5fb70323a1e1c,
            l2: 0x497ce7b79ebdac87,
            l3: 0xe71b327e45320dd5,
        },
    },
    Row {
        x: Words {
            l0: 0x3d3687774713a3b0,
            l1: 0x07c98652eb28249c,
            l2: 0x9f80d4d9027898cc,
            l3: 0xea255df3e3ee9fdb,
        },
        y: Words {
            l0: 0x75a20da5f97f0c19,
            l1: 0x48f3d80dc59dcb31,
            l2: 0x68af22b0e13a4370,
            l3: 0xe3162caf9d4f5bd6,
        },
    },
    Row {
        x: Words {
            l0: 0x029fc41ca24b5f7f,
            l1: 0xe94ec19b0801db99,
            l2: 0x56be9e05ee43bdae,
            l3: 0xe7e3af3f6cad4049,
        },
        y: Words {
            l0: 0xbb294c1967ad20aa,
            l1: 0x185ec50795886469,
            l2: 0x91bb4adfb4fbd595,
            l3: 0xe95f8615820b6d8f,
        },
    },
    Row {
        x: Words {
            l0: 0x414d3313d5c74b93,
            l1: 0xf14256ecdb6d9a91,
            l2: 0x3e4fcab843f2c9ec,
            l3: 0x14f4959822ba1d4f,
        },
        y: Words {
            l0: 0xbbf13474afa4716d,
            l1: 0xd23899e041976280,
            l2: 0x8afc38541c794fa1,
            l3: 0x4c298b97e78b6e92,
        },
    },
    Row {
        x: Words {
            l0: 0x7f3b4dab9f6527ef,
            l1: 0xb131b783e02067f8,
            l2: 0xe8d5c495bd650082,
            l3: 0x6782c95213886452,
        },
        y: Words {
            l0: 0x20645c0bbe9cd781,
            l1: 0x50f8b8750ed2c23f,
            l2: 0x3984d4d2e0115e04,
            l3: 0x3d9083fb7f4ceb38,
        },
    },
    Row {
        x: Words {
            l0: 0x45fc0b26ec10452f,
            l1: 0xb1476271d493c214,
            l2: 0xca2530de60b687ca,
            l3: 0x60d043ec92e2698c,
        },
        y: Words {
            l0: 0xee908113c78291ba,
            l1: 0xfdd6b52801127b81,
            l2: 0xf1067634f177be6c,
            l3: 0x8e6402da35634326,
        },
    },
    Row {
        x: Words {
            l0: 0xcda0b99e816307d2,
            l1: 0x235b7e71554fc52f,
            l2: 0x986131c757c17902,
            l3: 0x6e6471be9e06abab,
        },
        y: Words {
            l0: 0x54ed8cb5c3a40c18,
            l1: 0xf98adc48b03cdb83,
            l2: 0x3b3e520d4e95a091,
            l3: 0x04409b44b11f94bb,
        },
    },
    Row {
        x: Words {
            l0: 0x19928a29b8e53e43,
            l1: 0x4be80db7b36c8ef6,
            l2: 0x10463b29cb08aa09,
            l3: 0x1d0b62c791a932c7,
        },
        y: Words {
            l0: 0x445cd7f939a5fafa,
            l1: 0xb665a9932f40bd56,
            l2: 0x3aad99d70edf9b74,
            l3: 0xe6d7a8824990d881,
        },
    },
    Row {
        x: Words {
            l0: 0x451eb127f00de2e0,
            l1: 0x3801438c66668d24,
            l2: 0x3ac0566f68e8eebf,
            l3: 0xdf1cc8eb80125e3c,
        },
        y: Words {
            l0: 0x097156c43df7d040,
            l1: 0x820b57b8a2de2f0a,
            l2: 0x9b06d77b13bf412b,
            l3: 0x44063f4f8ba783c7,
        },
    },
    Row {
        x: Words {
            l0: 0x703fbf853e98fb58,
            l1: 0xa87b6ccee8b80afa,
            l2: 0x90a30510f23b6fba,
            l3: 0xc22766f6432811f0,
        },
        y: Words {
            l0: 0x373f28f61bde8ef5,
            l1: 0xd17ffd32806e6a4a,
            l2: 0xa42b89c430068fa6,
            l3: 0x9e6c62be07eda291,
        },
    },
    Row {
        x: Words {
            l0: 0x1abca512c00a3ec5,
            l1: 0x2d1ae5bce1ca0151,
            l2: 0x1f2283310f9d10a3,
            l3: 0xab071efb460caed3,
        },
        y: Words {
            l0: 0x9aa897239c20d689,
            l1: 0x78b388a665b9fc54,
            l2: 0x2bfcbdd786227be6,
            l3: 0x93eee05e46bc72b7,
        },
    },
    Row {
        x: Words {
            l0: 0x8bd3492277990133,
            l1: 0xb373fc338cc815c9,
            l2: 0xa4fe77a182353102,
            l3: 0xbc3255b867929616,
        },
        y: Words {
            l0: 0xff7630f8512d531d,
            l1: 0xa78b2884b9130124,
            l2: 0x13057e8097e79200,
            l3: 0x7f3b98006ba212e2,
        },
    },
    Row {
        x: Words {
            l0: 0x9d5adf6deffd64de,
            l1: 0x49b94110f55a405a,
            l2: 0xb9cf820598c7af30,
            l3: 0x60ae7db922d4f0a6,
        },
        y: Words {
            l0: 0x0d0dcb43c7fdece0,
            l1: 0x92862f92b4d00ae4,
            l2: 0x63829e08c1060c6b,
            l3: 0x02094381461872fc,
        },
    },
    Row {
        x: Words {
            l0: 0xb65a4baabb782a44,
            l1: 0x8c3196d484a74e34,
            l2: 0x6346fd68063508d5,
            l3: 0x8e6e32877a131723,
        },
        y: Words {
            l0: 0x0f62574d0d30b69e,
            l1: 0xc5d940f2c917518c,
            l2: 0x2437362838ecda34,
            l3: 0x44dc97d1da193b39,
        },
    },
    Row {
        x: Words {
            l0: 0xcbd7accf35fab9ee,
            l1: 0x09529f15eacef129,
            l2: 0x3efab6a0eb1108c0,
            l3: 0x1debe929d4b66f57,
        },
        y: Words {
            l0: 0xe22771d982228ed7,
            l1: 0xb5b95f1768f15b7e,
            l2: 0x83ef606f45cac02f,
            l3: 0x8c4b92fbed6afb93,
        },
    },
    Row {
        x: Words {
            l0: 0xbdd6f00e639c2adc,
            l1: 0xfef8d99cc4919a7b,
            l2: 0x814ae4acfca979f0,
            l3: 0xd4857935718ed00d,
        },
        y: Words {
            l0: 0x533964124c7c1314,
            l1: 0x7f770121ebfe39ef,
            l2: 0xd5e399a350d30bd5,
            l3: 0xa5bf98f1616c4b8e,
        },
    },
    Row {
        x: Words {
            l0: 0x451421f22aaf72bf,
            l1: 0x26761e7c7a9b0027,
            l2: 0xeae044e1e2093c60,
            l3: 0x5c6e7695b0a990e6,
        },
        y: Words {
            l0: 0xbfd9b953ba0c0a27,
            l1: 0x37f44fba68fc836a,
            l2: 0xe0f25af16c4d82a6,
            l3: 0x4462aeb6aeaa4adf,
        },
    },
    Row {
        x: Words {
            l0: 0xf63deaadd39e14ab,
            l1: 0xd42eb79d22e1f72b,
            l2: 0x72ea98532388e45a,
            l3: 0x7f89a0accab94e0d,
        },
        y: Words {
            l0: 0x68590b6caee245a8,
            l1: 0x98a487e185c6673e,
            l2: 0xe1b2e8428175c636,
            l3: 0x393b93ce1af41e18,
        },
    },
    Row {
        x: Words {
            l0: 0x1db2583523bf16c5,
            l1: 0xb5a45e0240abfb92,
            l2: 0x16bbb23c02196ebd,
            l3: 0xbca934a223495d10,
        },
        y: Words {
            l0: 0x94a3973b97a7a75c,
            l1: 0x143518b32d419bcc,
            l2: 0xfc0a6b7162ed0ef6,
            l3: 0xdf476018e8851937,
        },
    },
    Row {
        x: Words {
            l0: 0xc0f2affc4e6916c6,
            l1: 0x6fb94957811842da,
            l2: 0x6034bcb624b4d157,
            l3: 0xde2efdc7992efb90,
        },
        y: Words {
            l0: 0xd66f7eceac793c87,
            l1: 0x02f026267dc6fdcd,
            l2: 0x90d3235c9aa1c501,
            l3: 0xf6e494962b4666f0,
        },
    },
    Row {
        x: Words {
            l0: 0x13832c69662e97da,
            l1: 0xcd8ce2b4aa2cd727,
            l2: 0x74f2eb8ccf1a7dc0,
            l3: 0xf4d7fbbf459a2e53,
        },
        y: Words {
            l0: 0x22753cbb1381e6a4,
            l1: 0x4fc9ce29547b8688,
            l2: 0x66c734b24cd190e4,
            l3: 0x4fb516b9734a973f,
        },
    },
    Row {
        x: Words {
            l0: 0x9b3407777334f4f6,
            l1: 0xcb60b968b7c30f72,
            l2: 0x5e08a78fa9ef0542,
            l3: 0x04ec9cd5541cdac3,
        },
        y: Words {
            l0: 0xc0f7bb6f9004d469,
            l1: 0xfd9ee38723343d3d,
            l2: 0x429ca212f2d33309,
            l3: 0xa00d6da314f9a600,
        },
    },
    Row {
        x: Words {
            l0: 0xa513cb983b07bd14,
            l1: 0x76498eff02f03468,
            l2: 0x2bb7eb63585137d7,
            l3: 0x0466ea7325cc7b23,
        },
        y: Words {
            l0: 0xe01d9523ec7c6299,
            l1: 0xbc49f32d41571614,
            l2: 0x060ac38e3e74a6fc,
            l3: 0x5ed16392001cbaac,
        },
    },
    Row {
        x: Words {
            l0: 0xd3f4f96de72446b0,
            l1: 0xb7b4de4cfb0a772c,
            l2: 0x977096050ef6f0ba,
            l3: 0xe02fe7f37447ca22,
        },
        y: Words {
            l0: 0xc993a6d92d03e9e9,
            l1: 0xd6708a7640b4b0e1,
            l2: 0xcd0f158cf2f19f15,
            l3: 0x9f752b4ca4963332,
        },
    },
    Row {
        x: Words {
            l0: 0xe5ca2589f9ff5a7a,
            l1: 0x240b3b3a785fa633,
            l2: 0x088dc130660d979a,
            l3: 0x4b48fe9f2fd3c9ef,
        },
        y: Words {
            l0: 0xf0ab66cf0f986225,
            l1: 0xac9b262a22fa0c9d,
            l2: 0x8b6b8bad35b878a2,
            l3: 0x4c90e8855b895772,
        },
    },
    Row {
        x: Words {
            l0: 0xa330092fb9107999,
            l1: 0xb5c70cbde869bd79,
            l2: 0x94d9c87970d4ecd7,
            l3: 0xc86f5766f66785f3,
        },
        y: Words {
            l0: 0x11c74ea94a26b5f5,
            l1: 0x5821684637088195,
            l2: 0xf14d11defba08d49,
            l3: 0x362032bcdf4cda7f,
        },
    },
    Row {
        x: Words {
            l0: 0x250f01c420432815,
            l1: 0x1c3b6728b24f29cc,
            l2: 0x41abf76113ffe5ec,
            l3: 0x84665149fa9d03b8,
        },
        y: Words {
            l0: 0x7c35fa68fb0cbd9f,
            l1: 0xacf49f67338a2ffa,
            l2: 0xccf2d7dae6f143b3,
            l3: 0x09282b4909dd9c6e,
        },
    },
    Row {
        x: Words {
            l0: 0x247ba12540670316,
            l1: 0x8882dec66eb6c8d8,
            l2: 0x27e647932460f3d0,
            l3: 0x0d6228cbef48e6d2,
        },
        y: Words {
            l0: 0x2ee59f048366b808,
            l1: 0x782617376145f266,
            l2: 0xbcd1212ddbbc6f13,
            l3: 0xb08ab30442eb62b1,
        },
    },
    Row {
        x: Words {
            l0: 0x350be567c85ab647,
            l1: 0x60e10c8687d73937,
            l2: 0x79d77d795f87004b,
            l3: 0xf5cdf52eb3b8b82f,
        },
        y: Words {
            l0: 0x654ad701064cbbbd,
            l1: 0x41387d8ff1a840d2,
            l2: 0xa6c5054585ca177e,
            l3: 0x75a4de7bbb4b88b4,
        },
    },
    Row {
        x: Words {
            l0: 0x4a31e9f64efbf1a7,
            l1: 0xbb8fec39f4736405,
            l2: 0xee1d3c5e438b8062,
            l3: 0x7b9cfbccc244354d,
        },
        y: Words {
            l0: 0x9a56751abd09ddd9,
            l1: 0xa87dc2641bd72bcb,
            l2: 0xa768a58795cb96ec,
            l3: 0x65f535444c759476,
        },
    },
    Row {
        x: Words {
            l0: 0x3a56282911b747eb,
            l1: 0xbcb17625d2d249f0,
            l2: 0x666acb6e14b47dd9,
            l3: 0xecdf63c461eaea54,
        },
        y: Words {
            l0: 0x38ab47f80659f519,
            l1: 0x9de92e9c26f1a072,
            l2: 0xd570f6614da11b20,
            l3: 0x58e417c8ef2d5fcd,
        },
    },
    Row {
        x: Words {
            l0: 0x4a98a9642370e842,
            l1: 0xbe8996e48f5ca2f6,
            l2: 0x24c81fd19d7ae446,
            l3: 0x129b5d2931b44d03,
        },
        y: Words {
            l0: 0x7d0a23202a1c7a67,
            l1: 0x5f3636f091602c76,
            l2: 0x008a81b6808ce04d,
            l3: 0xe74f152014885164,
        },
    },
    Row {
        x: Words {
            l0: 0xa479d917eb6f2dba,
            l1: 0x5d1289b7e40b2b70,
            l2: 0x6a7d668925e5cb18,
            l3: 0x3729037f1bc7d5fb,
        },
        y: Words {
            l0: 0x5fd8c5d2d8cc97b6,
            l1: 0x158b57083acaa787,
            l2: 0x3e5693ac79c08449,
            l3: 0xd0ae7aed159916a5,
        },
    },
    Row {
        x: Words {
            l0: 0x4ad7a92184226ba5,
            l1: 0xc7a5bf443dc076de,
            l2: 0x1cdaa0d8fe7c9285,
            l3: 0x1a2985e4052491ca,
        },
        y: Words {
            l0: 0x90a4e8b070674605,
            l1: 0x6cbe43990a098549,
            l2: 0xcc5965e599344899,
            l3: 0xfdb20094f69c12bf,
        },
    },
    Row {
        x: Words {
            l0: 0x7dfbb6c0a6df520e,
            l1: 0xe39533bb4ddd1e84,
            l2: 0xbe25aac1f44653c5,
            l3: 0x4b65d579209241f9,
        },
        y: Words {
            l0: 0xedb34f5f8648ad7a,
            l1: 0x2674b77eabbda12a,
            l2: 0x0989b17423ead44d,
            l3: 0xbd0fa4c5c49a183a,
        },
    },
    Row {
        x: Words {
            l0: 0x9b6130a2fd52ced4,
            l1: 0x9bc0b8b65d50773e,
            l2: 0xdd08f94f9bfcc8db,
            l3: 0xdd33197ced190168,
        },
        y: Words {
            l0: 0x3062b5c707f21414,
            l1: 0x7244234e19839ddb,
            l2: 0x630f6ad89877267c,
            l3: 0xb283ddcdc868a7d3,
        },
    },
    Row {
        x: Words {
            l0: 0x716d2c381ac9656d,
            l1: 0x3861ac24658c8d98,
            l2: 0x705c516ee9250d94,
            l3: 0x948ceda6b1571fae,
        },
        y: Words {
            l0: 0x4fc7b2b0db5ee109,
            l1: 0xfbc80efc281089b5,
            l2: 0x2ba6730f4cd7f66a,
            l3: 0x87bcaf9d4d71912b,
        },
    },
    Row {
        x: Words {
            l0: 0x63a9bc7d3a498eb9,
            l1: 0xf60f191997d8c7be,
            l2: 0xfecacbc4b6dbc431,
            l3: 0x396af8d83fd00704,
        },
        y: Words {
            l0: 0x1c36fb779464c88c,
            l1: 0x468c66d35f8680f0,
            l2: 0xe78c84982043d81c,
            l3: 0x2b37f5d369c7b867,
        },
    },
    Row {
        x: Words {
            l0: 0xcdd121a7a4da0512,
            l1: 0x4ef507bbaa5303f6,
            l2: 0xb84ecd021bbe5f09,
            l3: 0xda80bf3c3eda0ed0,
        },
        y: Words {
            l0: 0xe834cf7977207aef,
            l1: 0xaca637503f15bf97,
            l2: 0x110e4295c3de245a,
            l3: 0xf7cc3bd56dd117e0,
        },
    },
    Row {
        x: Words {
            l0: 0xa7af8e4734ccc663,
            l1: 0x20c9a897682f7d41,
            l2: 0x3870b0f837ef19f1,
            l3: 0xeded7bc1e519ffb1,
        },
        y: Words {
            l0: 0x905c86797a21cb77,
            l1: 0x9084cbabdc04d028,
            l2: 0xae60d0cf5ad98998,
            l3: 0x35ba23c81b9596a7,
        },
    },
    Row {
        x: Words {
            l0: 0x687cc90c9ebec0d7,
            l1: 0xa094af091e29c51b,
            l2: 0xb288d3500f5fae25,
            l3: 0x85ef1ce3404a9373,
        },
        y: Words {
            l0: 0xa4b6ee055e671536,
            l1: 0x7886a321066fcbfc,
            l2: 0x6ce84b2f9541e5e1,
            l3: 0xdb6eccaf85419d49,
        },
    },
    Row {
        x: Words {
            l0: 0x57bd77337acd508d,
            l1: 0x9c024f50b91548be,
            l2: 0x6074dc7cece4d991,
            l3: 0x7ab0d5aecd2d11f9,
        },
        y: Words {
            l0: 0x3854452591209734,
            l1: 0x01c3371f8dcc74cd,
            l2: 0xe5fb91080d0f927b,
            l3: 0x1ba64389d5d3da01,
        },
    },
    Row {
        x: Words {
            l0: 0x928b83f56a7928e3,
            l1: 0x9a98ad7498be85a6,
            l2: 0x6ab45d6008b33f84,
            l3: 0x4bdfc8c269c75813,
        },
        y: Words {
            l0: 0xc25dda94fe42b52b,
            l1: 0x52d96987ab58cf4e,
            l2: 0x90cd76f5261f4a14,
            l3: 0x3958e9f734a8e2d6,
        },
    },
    Row {
        x: Words {
            l0: 0xa0df5abd29ec25a5,
            l1: 0x3d6afe1c77fd4da3,
            l2: 0xfeb9380a819ee1f1,
            l3: 0xa47565134ca4d7d3,
        },
        y: Words {
            l0: 0xa52f7fa87957613b,
            l1: 0x0e94d629282e7c91,
            l2: 0x3b6e9532b18809f1,
            l3: 0x2cea67452aa7de65,
        },
    },
    Row {
        x: Words {
            l0: 0xf87bc5ad5f28c781,
            l1: 0xf1d84a3ac6fa266a,
            l2: 0x16a11da19e8b432d,
            l3: 0x4882444f6746eb37,
        },
        y: Words {
            l0: 0x5bf07c383c7010fb,
            l1: 0xb55d9dbab5a9f97f,
            l2: 0x1c0ce37547cd166b,
            l3: 0xe0796e9576678b23,
        },
    },
    Row {
        x: Words {
            l0: 0x0a043e1155fab314,
            l1: 0x9f121c10b824d9f3,
            l2: 0x4befe512ec2db24c,
            l3: 0xbd3d653355f729c4,
        },
        y: Words {
            l0: 0x6738db7df2324331,
            l1: 0x07a955ce0cbefc37,
            l2: 0xdf5c57faf8005551,
            l3: 0xbc5f920224706ff7,
        },
    },
    Row {
        x: Words {
            l0: 0xbc572366625fcdcf,
            l1: 0x99854dccd0125229,
            l2: 0x636fed139a845606,
            l3: 0x31dcc27c1a32ab23,
        },
        y: Words {
            l0: 0xc1bb6b28d0c74d67,
            l1: 0x8cf9f549b7f2db89,
            l2: 0x53fa58b2c5973373,
            l3: 0xcb4c852a2e55f478,
        },
    },
    Row {
        x: Words {
            l0: 0x2a9ed7bcd8836938,
            l1: 0x086043f30b99311e,
            l2: 0xe05cd307da30e587,
            l3: 0xb97c3b7e9fc2a9f3,
        },
        y: Words {
            l0: 0xfbe028ca00674769,
            l1: 0xba85ab376431c73d,
            l2: 0xac45401f6739b406,
            l3: 0x0628114b7fa80bce,
        },
    },
    Row {
        x: Words {
            l0: 0xf9f5d6235e0833b4,
            l1: 0xc645535a3eec934f,
            l2: 0x17dfef4891905168,
            l3: 0x73df276609157684,
        },
        y: Words {
            l0: 0x17a22c379e58cc1f,
            l1: 0x52b52cdd5508f08d,
            l2: 0xe1c4006a8a37b4f5,
            l3: 0x693d2fb981e5c936,
        },
    },
    Row {
        x: Words {
            l0: 0x68eeb05c536ef09d,
            l1: 0x173cf2009a275a9c,
            l2: 0xe718700961e02ec7,
            l3: 0x940135c391be32d4,
        },
        y: Words {
            l0: 0x860ce33695664fe9,
            l1: 0x29c3183ddd54cf61,
            l2: 0xa79f076579040585,
            l3: 0xb545572b7b3f4e6f,
        },
    },
    Row {
        x: Words {
            l0: 0x70ad14e478a414b2,
            l1: 0x52b72e920cbaa1d8,
            l2: 0x10edd1eab6bb6fdb,
            l3: 0x12acba6ffd78c821,
        },
        y: Words {
            l0: 0x8fdb75e81458fa14,
            l1: 0xc423d4209dee8c5e,
            l2: 0x9a8463f594b6104a,
            l3: 0x2fde2be6ccee9be8,
        },
    },
    Row {
        x: Words {
            l0: 0x082736d19c0859c3,
            l1: 0x89ea5516b269386a,
            l2: 0xf25071871aa87b33,
            l3: 0xe9d82f5f704e8236,
        },
        y: Words {
            l0: 0x7834612442e855f5,
            l1: 0x209f50fe395e00d8,
            l2: 0xcd9e03aae6e7e62b,
            l3: 0xb4b4959e5e5be37b,
        },
    },
    Row {
        x: Words {
            l0: 0xd342772ba208937e,
            l1: 0x314ab8b270a558cc,
            l2: 0xb2b0ecee615717a3,
            l3: 0x8d0b9db03dd54a93,
        },
        y: Words {
            l0: 0x15209b1771a6db88,
            l1: 0x33c8931c58a1afe7,
            l2: 0x79e3b6e4ec4ec6d8,
            l3: 0x67efbe60ef1f485d,
        },
    },
    Row {
        x: Words {
            l0: 0x4d263443971f3773,
            l1: 0xe70e6f8a4d973639,
            l2: 0xdb8d8de11dc86c56,
            l3: 0x194f9e9d7a8cba58,
        },
        y: Words {
            l0: 0x78a2e8e166388d73,
            l1: 0x054ca393b8651216,
            l2: 0x9c5f486cc530bd5a,
            l3: 0x0e54d13e13904b84,
        },
    },
    Row {
        x: Words {
            l0: 0x28f1c5850749f50f,
            l1: 0x132386a41e5b1f5b,
            l2: 0xab78aec2ba5ff74a,
            l3: 0x711754a9e7586d35,
        },
        y: Words {
            l0: 0xc2385603c92d5178,
            l1: 0x5bf37c09f346333d,
            l2: 0x4207c33a2d8da734,
            l3: 0xf1a7ab09f4c09ce8,
        },
    },
    Row {
        x: Words {
            l0: 0xf172e50e27a27759,
            l1: 0x0466858b79166b11,
            l2: 0xe486273b48311f07,
            l3: 0x3ce42ae188ac9629,
        },
        y: Words {
            l0: 0x2306c81296b19775,
            l1: 0xd137ddbf918a6c62,
            l2: 0xe13a7015a3bfd511,
            l3: 0xa879be93ec454a39,
        },
    },
    Row {
        x: Words {
            l0: 0xc481bb9a9c7c0b4a,
            l1: 0x026d81beb30f0a99,
            l2: 0x41392ad87a1b381b,
            l3: 0xd44754a5b15579f6,
        },
        y: Words {
            l0: 0xb02e68377d8f660a,
            l1: 0x6add4477dbc8d5b4,
            l2: 0x3b4efe824d66bcec,
            l3: 0x78964c0109d0dca3,
        },
    },
    Row {
        x: Words {
            l0: 0x4494d526e270a325,
            l1: 0x08a3d0dcbf1fe4fb,
            l2: 0xada2423b850117f6,
            l3: 0x213056f6ca8d6cd8,
        },
        y: Words {
            l0: 0xfcaf0b7831ec0ab1,
            l1: 0xe94cdc1468b8e1be,
            l2: 0xaa48dcaf2fee3a84,
            l3: 0xa5286efe5e381227,
        },
    },
    Row {
        x: Words {
            l0: 0xd14a7d4ed85221e5,
            l1: 0xe4c19c52bc99037b,
            l2: 0x2fc47aa11e9ac3f7,
            l3: 0x72ffff6cc750eb1c,
        },
        y: Words {
            l0: 0x85e5c154b5acf60e,
            l1: 0x70a430a674ce0518,
            l2: 0x7675dc40e5be466a,
            l3: 0x04c20577c4dd37c5,
        },
    },
    Row {
        x: Words {
            l0: 0xad77f062500491e6,
            l1: 0xfc24b431ec0fb1ee,
            l2: 0x9d85430cae7b23bd,
            l3: 0x094fcc9452bd0200,
        },
        y: Words {
            l0: 0xe7cbb1e827730025,
            l1: 0x52dca27580144561,
            l2: 0xfb17ef2bcc164683,
            l3: 0x24b0a95f5091cdd8,
        },
    },
    Row {
        x: Words {
            l0: 0x1cf4bc889e301ad0,
            l1: 0xa7944fb957cb0179,
            l2: 0xcc61f9607ec4da1c,
            l3: 0x50285056cf7320cd,
        },
        y: Words {
            l0: 0x5f28f104d2915739,
            l1: 0xc5455e159924620b,
            l2: 0x8af71a68c220710f,
            l3: 0xcc37f43f6beeef82,
        },
    },
    Row {
        x: Words {
            l0: 0x07db3583b607426f,
            l1: 0x126be356feacd8df,
            l2: 0x9cc4831273d39f83,
            l3: 0x201e9c715d638449,
        },
        y: Words {
            l0: 0x7f3ab6e44d5def15,
            l1: 0x68f5bc2d21f4191e,
            l2: 0xad42a3adc8ab2213,
            l3: 0x3382771774cfab42,
        },
    },
    Row {
        x: Words {
            l0: 0x2c19d407951c9dae,
            l1: 0x26f6677560b1f6a6,
            l2: 0xe28ff62755e0a043,
            l3: 0x62a5dd6c6d0a0e81,
        },
        y: Words {
            l0: 0xa7410810a33f4118,
            l1: 0xa66dadf9c0eea589,
            l2: 0x099acd6994d9dff5,
            l3: 0xb163484c4b773ed6,
        },
    },
    Row {
        x: Words {
            l0: 0x0d0d00a8d5f14ef1,
            l1: 0xd3323a58bfe11e01,
            l2: 0x3b3ed4d421672fcc,
            l3: 0x0a30ae004f09069a,
        },
        y: Words {
            l0: 0x2e0b384ef484ecac,
            l1: 0x187ff7ccd2b39d4d,
            l2: 0xaa3f6715b8f4f60d,
            l3: 0xdac73188cd3f7856,
        },
    },
    Row {
        x: Words {
            l0: 0xb3626b376a14abf2,
            l1: 0xdad486944800400d,
            l2: 0xdf0f9eaa420c372c,
            l3: 0x66e06bc387c49165,
        },
        y: Words {
            l0: 0xa8ec8d58d43ace09,
            l1: 0xc70afa05bd88bdc6,
            l2: 0x02c3ea7530406b65,
            l3: 0x34d831e2567af8c0,
        },
    },
    Row {
        x: Words {
            l0: 0xbb74a206c676351e,
            l1: 0xab27710488e6dd11,
            l2: 0xfb2aad507c945318,
            l3: 0xef1f2ce432bb9757,
        },
        y: Words {
            l0: 0xae769be603c8087b,
            l1: 0x00117af0fad30edd,
            l2: 0xe4a6ca108b2d37da,
            l3: 0xbae1579f854979ba,
        },
    },
    Row {
        x: Words {
            l0: 0xddffb87cd2ea70b4,
            l1: 0xa8a308276bfb1c75,
            l2: 0x3fc8f84507d345f7,
            l3: 0xa3c8220107c99374,
        },
        y: Words {
            l0: 0xe3861a478e52c633,
            l1: 0xa3fa73352f93120d,
            l2: 0xb86b05b93165ed5c,
            l3: 0xc03f5880b306733d,
        },
    },
    Row {
        x: Words {
            l0: 0x85cc1158d295a458,
            l1: 0x52625915a81821f7,
            l2: 0xeae65a00dabf3d08,
            l3: 0x8567e0492d2db6d9,
        },
        y: Words {
            l0: 0xf6c9d65b3565303b,
            l1: 0x3928349ba7cb419f,
            l2: 0x4aa7cd7a1275714c,
            l3: 0x921ef60bec0fdcda,
        },
    },
    Row {
        x: Words {
            l0: 0x57ab12a3984e3fdc,
            l1: 0x239ac554a6f45aa0,
            l2: 0x602ad857b33face5,
            l3: 0x8b5281c23a403957,
        },
        y: Words {
            l0: 0x94e5c07608eae36a,
            l1: 0x6da18f730dc9bc05,
            l2: 0x0623fbb15ad7d1cb,
            l3: 0x4eeec087883d0a20,
        },
    },
    Row {
        x: Words {
            l0: 0x1f27a611e7bc8667,
            l1: 0x2489aeb49458d3e4,
            l2: 0x0e21c27f12d1d599,
            l3: 0x0395c94a86208f32,
        },
        y: Words {
            l0: 0xbf1bd26a1d9d25f7,
            l1: 0x168e66d7de284b48,
            l2: 0x6a4216fed1544f97,
            l3: 0x74f30713748e4b3b,
        },
    },
    Row {
        x: Words {
            l0: 0x89563b16e5eb7376,
            l1: 0x66e222f7902e6580,
            l2: 0x81b721c8aad80c7f,
            l3: 0xcbf9a33475dd4fa6,
        },
        y: Words {
            l0: 0x868c6a6448415259,
            l1: 0x3d98f8ae3cb46440,
            l2: 0xd1fea41d1cdf5428,
            l3: 0xaf04660861baf8ca,
        },
    },
    Row {
        x: Words {
            l0: 0x0622879a83c1fad5,
            l1: 0xe039051912fbbb42,
            l2: 0xf18c5ae5c27c3bf2,
            l3: 0xd037c06e4c24ab07,
        },
        y: Words {
            l0: 0x915c9290a68b535a,
            l1: 0xe9d952e657eda658,
            l2: 0xc8d5627287ae0511,
            l3: 0xc51175b0fd1aa47c,
        },
    },
    Row {
        x: Words {
            l0: 0x8b1ca80abfaaa237,
            l1: 0xa50cf163c75f7cdf,
            l2: 0xe6b2acc791b00b68,
            l3: 0x7228e388634880b1,
        },
        y: Words {
            l0: 0x587ab652445c587e,
            l1: 0x6dd44e83d2f8e1b1,
            l2: 0x713b2f6eeddc8968,
            l3: 0xf726f0528a0a053b,
        },
    },
    Row {
        x: Words {
            l0: 0x7b94df7bf5309b27,
            l1: 0xbfd4b86e048ae38f,
            l2: 0x25399cbc1b82f5bc,
            l3: 0x0fcf8f88fa78a208,
        },
        y: Words {
            l0: 0x405e8f18ca16b171,
            l1: 0x7c570c5258be96bb,
            l2: 0xa9f56ca5a12c0010,
            l3: 0x7d8e2a1a7336f7c5,
        },
    },
    Row {
        x: Words {
            l0: 0xb6eec90dd7ac2b21,
            l1: 0x247cba7a8c6d3b2c,
            l2: 0x61ed6b9d1d8e3318,
            l3: 0x902a5e7d7f736944,
        },
        y: Words {
            l0: 0x1d880838d4192bf2,
            l1: 0x23420a8a984ad887,
            l2: 0x5c1890f6dc485297,
            l3: 0x901ec12c8d708602,
        },
    },
    Row {
        x: Words {
            l0: 0xe1b3b137b3e0835a,
            l1: 0x554f462fd1b856b5,
            l2: 0x33e575046fb893cc,
            l3: 0x016fc35f3722667a,
        },
        y: Words {
            l0: 0xc61bbac1f8741724,
            l1: 0x9ce209aeee8f132c,
            l2: 0xede009e2ed448442,
            l3: 0xc186d9223daffb5c,
        },
    },
    Row {
        x: Words {
            l0: 0x73574daa9aafa426,
            l1: 0x9947de6d58a4aa0a,
            l2: 0x917355bf343f4f94,
            l3: 0x40ff8852a0794f94,
        },
        y: Words {
            l0: 0x04a7835ef6b226dc,
            l1: 0x93b55bbd1bb763fe,
            l2: 0xa3578393e08b0053,
            l3: 0x7181a69f82ef44fd,
        },
    },
    Row {
        x: Words {
            l0: 0x9f7c68bf19d45325,
            l1: 0xf2bb95309643d151,
            l2: 0xd88c04afc7d91075,
            l3: 0x71abd7e12b97d542,
        },
        y: Words {
            l0: 0x697ca7cbe77c22f1,
            l1: 0x170802a003fd9ce6,
            l2: 0x801fb17343fb54ac,
            l3: 0xed5b60fea94e416f,
        },
    },
    Row {
        x: Words {
            l0: 0x53c55500d5a12003,
            l1: 0x159930c6c157fc81,
            l2: 0x89a73fb5c90926c8,
            l3: 0x9d7f42388b54e950,
        },
        y: Words {
            l0: 0x37c3e7616d95d509,
            l1: 0x323da0a871d5a1a1,
            l2: 0xb4ddbc782b9cce10,
            l3: 0x2b585aed6f4b006a,
        },
    },
    Row {
        x: Words {
            l0: 0x3c2764182ea9459d,
            l1: 0x9f5d44dfb05e63c9,
            l2: 0x682dd5973b6a8689,
            l3: 0x23af67aed4df7389,
        },
        y: Words {
            l0: 0xb42ded60e2ca1387,
            l1: 0xa2113346b5970584,
            l2: 0x1f99b0c7c809a897,
            l3: 0x164d0d0e60301b7d,
        },
    },
    Row {
        x: Words {
            l0: 0x97dc759973ee3a46,
            l1: 0x37772bd58cb5a5be,
            l2: 0x85a3f3a483a17e4a,
            l3: 0xfb4941415324b823,
        },
        y: Words {
            l0: 0x672a65542cf3d3d9,
            l1: 0x7d10aabc28ca9ca5,
            l2: 0xf7b308e923c80c39,
            l3: 0x62667900cb32e3fd,
        },
    },
    Row {
        x: Words {
            l0: 0x29db9607b67310d3,
            l1: 0xf8598a3eb7180215,
            l2: 0xd0efaedd76aa99ea,
            l3: 0xc1549563ad0fdb0d,
        },
        y: Words {
            l0: 0xad350df8bc39e126,
            l1: 0x4559cb14da6b2d48,
            l2: 0xe34526fdc8316f2f,
            l3: 0x846e46969ef2a951,
        },
    },
    Row {
        x: Words {
            l0: 0xe111f348c06526e3,
            l1: 0x03a1b36d48c557c1,
            l2: 0x75100ef697e0fa40,
            l3: 0x5aab7f880a0da5f9,
        },
        y: Words {
            l0: 0x08f5bab01dea81eb,
            l1: 0x8d834fb052309bef,
            l2: 0xc0acdfc5134422d5,
            l3: 0xb7b5e68517df49ae,
        },
    },
];
