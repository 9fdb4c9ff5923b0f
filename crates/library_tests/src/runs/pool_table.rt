use super::table::{REFUSED, REPLAYED, Row, STOPPED};

/// Traces with pools, with what is written and how they end.
pub static POOLS: [Row; 15] = [
    (
        r#"[["pool",1,"tlsf",1,4096,2],["buffer",10,1024,3,"exclusive",["pool",1]],["buffer",11,1024,3,"exclusive",["pool",1]],["buffer",12,1024,3,"exclusive",["pool",1]],["buffer",13,1024,3,"exclusive",["pool",1]],["buffer",14,1024,3,"exclusive",["pool",1]],["buffer",15,1024,3,"exclusive",["pool",1]],["buffer",16,1024,3,"exclusive",["pool",1]],["buffer",17,1024,3,"exclusive",["pool",1]],["map",17],["write",17,0,"abcd"],["destroy",10],["destroy",12],["destroy",14],["destroy",16],["read",17,0,2],["buffer",20,2048,3,"exclusive",["pool",1]]]"#,
        "15 abcd\nstopped 16 NO_ROOM\n",
        STOPPED,
    ),
    (
        r#"[["pool",1,"linear",1,4096,1],["buffer",2,2048,3,"exclusive",["pool",1]],["buffer",3,2048,3,"exclusive",["pool",1]],["destroy",2],["buffer",4,1024,3,"exclusive",["pool",1]],["buffer",5,1024,3,"exclusive",["pool",1]],["buffer",6,16,3,"exclusive",["pool",1]]]"#,
        "stopped 6 NO_ROOM\n",
        STOPPED,
    ),
    (
        r#"[["pool",1,"linear",1,4096,1],["buffer",2,2048,3,"exclusive",["pool",1]],["buffer",3,2048,3,"exclusive",["pool",1]],["destroy",2],["buffer",4,1024,3,"exclusive",["pool",1]],["buffer",5,1024,3,"exclusive",["pool",1]]]"#,
        "",
        REPLAYED,
    ),
    (
        r#"[["pool",1,"linear",1,4096,1],["buffer",2,2048,3,"exclusive",["pool",1]],["buffer",3,1024,3,"exclusive",["pool_upper",1]],["buffer",4,1024,3,"exclusive",["pool",1]],["buffer",5,16,3,"exclusive",["pool",1]]]"#,
        "stopped 4 NO_ROOM\n",
        STOPPED,
    ),
    (
        r#"[["pool",1,"linear",1,4096,2],["buffer",2,2048,3,"exclusive",["pool",1]],["buffer",3,1024,3,"exclusive",["pool_upper",1]]]"#,
        "refused 2 POOL_KIND\n",
        REFUSED,
    ),
    (
        r#"[["pool",1,"tlsf",1,4096,2],["buffer",2,2064,3,"exclusive",["pool",1]]]"#,
        "refused 1 POOL_SIZE\n",
        REFUSED,
    ),
    (
        r#"[["pool",1,"tlsf",1,4096,2],["buffer",2,2048,3,"exclusive",["pool",1]],["drop_pool",1]]"#,
        "refused 2 IN_USE\n",
        REFUSED,
    ),
    (
        r#"[["pool",1,"tlsf",1,1000,2]]"#,
        "refused 0 SIZE\n",
        REFUSED,
    ),
    (
        r#"[["pool",1,"tlsf",1,4096,1],["image",2,"R8_UINT",8,8,1,1,"optimal",3,"exclusive",["pool",1]]]"#,
        "refused 1 MEMORY_TYPE\n",
        REFUSED,
    ),
    (
        r#"[["buffer",1,16,3,"exclusive",["pool",1]]]"#,
        "refused 0 LIVE_ID\n",
        REFUSED,
    ),
    (
        r#"[["pool",1,"linear",1,4096,1],["buffer",2,2048,3,"exclusive",["pool",1]],["buffer",3,2048,1,"exclusive",["pool_upper",1]],["semaphore",4,0],["map",3],["write",3,0,"01020304"],["submit",0,[[[],[["copy",3,2,[[0,0,4]]],["barrier",[[4096,4096,16384,8192]],[],[]]],[[4,1,65536]]]]],["wait",[[4,1]]],["unmap",3],["destroy",3],["buffer",5,1024,3,"exclusive",["pool",1]],["map",2],["read",2,0,4],["unmap",2],["destroy",2],["destroy",5],["drop_pool",1]]"#,
        "12 01020304\n",
        REPLAYED,
    ),
    (
        r#"[["pool",1,"tlsf",2,4096,1],["buffer",2,16,3,"exclusive",["pool",1]],["buffer",3,16,3,"exclusive",["pool",1]],["map",2],["map",3],["write",2,0,"aa"],["write",3,0,"bb"],["flush",3,0,1],["invalidate",3,0,1],["read",2,0,1],["read",3,0,1]]"#,
        "9 aa\n10 bb\n",
        REPLAYED,
    ),
    (
        r#"[["pool",1,"tlsf",1,2097152,2],["buffer",2,1048576,3,"exclusive",["pool",1]],["buffer",3,1048576,3,"exclusive",["pool",1]],["buffer",4,16,3,"exclusive",["pool",1]],["destroy",4],["memory",5,1,2097152],["buffer",6,16,3,"exclusive",["memory",5,0]],["map",6],["write",6,0,"0a"],["read",6,0,1],["buffer",7,16,3,"exclusive",["pool",1]]]"#,
        "9 0a\nstopped 10 NO_ROOM\n",
        STOPPED,
    ),
    (
        r#"[["pool",1,"tlsf",0,4096,1],["buffer",2,16,3,"exclusive",["pool",1]],["image",3,"R8_UINT",8,8,1,1,"optimal",3,"exclusive",["pool",1]],["buffer",4,1024,3,"exclusive",["pool",1]],["buffer",5,1024,3,"exclusive",["pool",1]],["buffer",6,1008,3,"exclusive",["pool",1]],["buffer",7,16,3,"exclusive",["pool",1]]]"#,
        "stopped 6 NO_ROOM\n",
        STOPPED,
    ),
    (
        r#"[["pool",1,"tlsf",1,4096,1],["pool",1,"tlsf",1,4096,1]]"#,
        "refused 1 NEW_ID\n",
        REFUSED,
    ),
];
