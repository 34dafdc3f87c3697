//! Batches of the messages of FIPS 180-4's examples, with their digests. That each digest of a batch is that
//! of its own message, whatever else is in the batch, is the contract of `Batch::digests`.

use sha_lanes::Batch;
use std::process::Abort;
use std::test::Fail;

/// At least as many messages of one length as there are lanes: then each lane has one.
const COPIES: usize = 8;

/// A message of FIPS 180-4's examples, and its digest.
#[derive(Clone, Copy)]
struct Vector<'a> {
    message: &'a [u8],
    digest: [u8; 32],
}

const EMPTY: Vector<'static> = Vector {
    message: b"",
    digest: [
        0xe3, 0xb0, 0xc4, 0x42, 0x98, 0xfc, 0x1c, 0x14, 0x9a, 0xfb, 0xf4, 0xc8, 0x99, 0x6f, 0xb9,
        0x24, 0x27, 0xae, 0x41, 0xe4, 0x64, 0x9b, 0x93, 0x4c, 0xa4, 0x95, 0x99, 0x1b, 0x78, 0x52,
        0xb8, 0x55,
    ],
};

const ABC: Vector<'static> = Vector {
    message: b"abc",
    digest: [
        0xba, 0x78, 0x16, 0xbf, 0x8f, 0x01, 0xcf, 0xea, 0x41, 0x41, 0x40, 0xde, 0x5d, 0xae, 0x22,
        0x23, 0xb0, 0x03, 0x61, 0xa3, 0x96, 0x17, 0x7a, 0x9c, 0xb4, 0x10, 0xff, 0x61, 0xf2, 0x00,
        0x15, 0xad,
    ],
};

/// 448 bits: the length no longer fits the message's only block.
const TWO_BLOCKS: Vector<'static> = Vector {
    message: b"abcdbcdecdefdefgefghfghighijhijkijkljklmklmnlmnomnopnopq",
    digest: [
        0x24, 0x8d, 0x6a, 0x61, 0xd2, 0x06, 0x38, 0xb8, 0xe5, 0xc0, 0x26, 0x93, 0x0c, 0x3e, 0x60,
        0x39, 0xa3, 0x3c, 0xe4, 0x59, 0x64, 0xff, 0x21, 0x67, 0xf6, 0xec, 0xed, 0xd4, 0x19, 0xdb,
        0x06, 0xc1,
    ],
};

/// 896 bits.
const LONGER: Vector<'static> = Vector {
    message: b"abcdefghbcdefghicdefghijdefghijkefghijklfghijklmghijklmn\
        hijklmnoijklmnopjklmnopqklmnopqrlmnopqrsmnopqrstnopqrstu",
    digest: [
        0xcf, 0x5b, 0x16, 0xa7, 0x78, 0xaf, 0x83, 0x80, 0x03, 0x6c, 0xe5, 0x9e, 0x7b, 0x04, 0x92,
        0x37, 0x0b, 0x24, 0x9b, 0x11, 0xe8, 0xf0, 0x7a, 0x51, 0xaf, 0xac, 0x45, 0x03, 0x7a, 0xfe,
        0xe9, 0xd1,
    ],
};

/// The digest of one million bytes `a`.
const MILLION: [u8; 32] = [
    0xcd, 0xc7, 0x6e, 0x5c, 0x99, 0x14, 0xfb, 0x92, 0x81, 0xa1, 0xc7, 0xe2, 0x84, 0xd7, 0x3e, 0x67,
    0xf1, 0x80, 0x9a, 0x48, 0xa4, 0x97, 0x20, 0x0e, 0x04, 0x6d, 0x39, 0xcc, 0xc7, 0x11, 0x2c, 0xd0,
];

/// Checks a batch of these messages.
fn check<R: AllocGlobal + Abort>(rt: &R, vectors: &[Vector]) -> Result<(), Fail> {
    let mut batch = Batch::new(rt.alloc());
    for vector in vectors {
        batch.append(vector.message)?;
        batch.end()?;
    }
    let digests = batch.digests(rt.alloc())?;
    assert_eq!(rt; digests.len(), vectors.len());
    for (found, vector) in digests.iter().zip(vectors) {
        assert_eq!(rt; *found, vector.digest);
    }
    Ok(())
}

/// Each alone, then in each lane, then side by side: the lanes end after different numbers of blocks.
#[test]
fn the_examples_of_the_standard_alone_in_each_lane_and_side_by_side(
    rt: HostRuntime,
) -> Result<(), Fail> {
    let million = vec![in rt.alloc(); b'a'; 1_000_000]?;
    let longest = Vector {
        message: &million,
        digest: MILLION,
    };
    for vector in [EMPTY, ABC, TWO_BLOCKS, LONGER, longest] {
        check(&rt, &[vector])?;
        check(&rt, &[vector; COPIES])?;
    }
    let mixed = [
        longest, LONGER, EMPTY, longest, TWO_BLOCKS, ABC, EMPTY, longest, LONGER, ABC,
    ];
    check(&rt, &mixed)
}
