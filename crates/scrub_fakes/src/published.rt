//! Published reports of two whole scrubs, as the format's description prints them, and the index of no shard.
//! Each report is one line with its line feed. The others are in `tests/test_answers.py`.

/// The report of the disk with one shard.
pub const ONE_SHARD: &str = concat!(
    r#"{"broken":[],"candidates":[],"clean":true,"dangling":[],"doubtful":[],"extents":[{"bad":[],"#,
    r#""extent":1,"#,
    r#""items":["chunk 0 41 11111111-1111-1111-1111-111111111111 3"],"live":41,"pointer":41,"tail":0,"#,
    r#""tail_at":null},"#,
    r#"{"bad":[],"extent":2,"#,
    r#""items":["chunk 0 155 22222222-2222-2222-2222-222222222222 117"],"live":155,"pointer":155,"tail":0,"#,
    r#""tail_at":null}],"#,
    r#""geometry":{"extents":3,"page":64,"pages":4},"hidden":[],"orphans":[],"retired":[],"#,
    r#""runs":[{"entries":1,"extent":2,"offset":0,"state":"read"}],"shards":1,"shared":[],"#,
    r#""super":{"bad":[],"generation":1,"page":0,"records":1,"tie":false},"twins":[]}"#,
    "\n"
);

/// The report of the disk with twins and a shared place.
pub const TWINS: &str = concat!(
    r#"{"broken":[],"candidates":[{"extent":1,"free":41,"keep":[41]}],"clean":false,"dangling":[],"#,
    r#""doubtful":[],"#,
    r#""extents":[{"bad":[],"extent":1,"#,
    r#""items":["chunk 0 41 11111111-1111-1111-1111-111111111111 3","#,
    r#""chunk 41 82 11111111-1111-1111-1111-111111111111 3"],"live":41,"pointer":82,"tail":0,"#,
    r#""tail_at":null},"#,
    r#"{"bad":[],"extent":2,"#,
    r#""items":["chunk 0 232 22222222-2222-2222-2222-222222222222 194"],"live":232,"pointer":232,"tail":0,"#,
    r#""tail_at":null}],"#,
    r#""geometry":{"extents":3,"page":64,"pages":4},"hidden":[],"#,
    r#""orphans":[{"extent":1,"length":3,"offset":0,"uuid":"11111111-1111-1111-1111-111111111111"}],"#,
    r#""retired":[],"runs":[{"entries":2,"extent":2,"offset":0,"state":"read"}],"shards":2,"#,
    r#""shared":[{"count":2,"extent":1,"offset":41}],"#,
    r#""super":{"bad":[],"generation":1,"page":0,"records":1,"tie":false},"#,
    r#""twins":[{"extent":1,"length":3,"offset":0,"uuid":"11111111-1111-1111-1111-111111111111"},"#,
    r#"{"extent":1,"length":3,"offset":41,"uuid":"11111111-1111-1111-1111-111111111111"}]}"#,
    "\n"
);

/// The index of no shard: an index run of no entries.
pub const NO_SHARDS: [u8; 40] = [
    0x52, 0x55, 0x4E, 0x31, 0x00, 0x00, 0x00, 0x00, 0x9A, 0x61, 0x1D, 0x9F, 0xB7, 0x17, 0x61, 0xFB,
    0x2E, 0x22, 0x99, 0xE2, 0xF7, 0xE3, 0x46, 0xC4, 0xEA, 0x61, 0xD8, 0xE2, 0x52, 0x97, 0x40, 0x4A,
    0xEB, 0x68, 0xD5, 0x4D, 0x2E, 0xEF, 0xB7, 0x96,
];
