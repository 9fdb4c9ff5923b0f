use super::table::{REFUSED, REPLAYED, Row, STOPPED};

/// Traces with passes of defragmentations, with what is written and how they end.
pub static PASSES: [Row; 18] = [
    (
        r#"[["pool",1,"tlsf",1,4096,2],["buffer",10,1024,3,"exclusive",["pool",1]],["buffer",11,1024,3,"exclusive",["pool",1]],["buffer",12,1024,3,"exclusive",["pool",1]],["buffer",13,1024,3,"exclusive",["pool",1]],["buffer",14,1024,3,"exclusive",["pool",1]],["buffer",15,1024,3,"exclusive",["pool",1]],["buffer",16,1024,3,"exclusive",["pool",1]],["buffer",17,1024,3,"exclusive",["pool",1]],["map",17],["write",17,0,"abcd"],["destroy",10],["destroy",12],["destroy",14],["destroy",16],["read",17,0,2],["defrag",2,1,0,0],["pass",2],["end_pass",2,[],[]],["end_defrag",2],["buffer",20,2048,3,"exclusive",["pool",1]],["read",17,0,2]]"#,
        "15 abcd\n21 abcd\n",
        REPLAYED,
    ),
    (
        r#"[["pool",1,"tlsf",1,4096,2],["buffer",10,1024,3,"exclusive",["pool",1]],["buffer",11,1024,3,"exclusive",["pool",1]],["buffer",12,1024,3,"exclusive",["pool",1]],["buffer",13,1024,3,"exclusive",["pool",1]],["buffer",14,1024,3,"exclusive",["pool",1]],["buffer",15,1024,3,"exclusive",["pool",1]],["buffer",16,1024,3,"exclusive",["pool",1]],["buffer",17,1024,3,"exclusive",["pool",1]],["map",17],["write",17,0,"abcd"],["destroy",10],["destroy",12],["destroy",14],["destroy",16],["read",17,0,2],["defrag",2,1,0,0],["pass",2],["end_pass",2,[17],[15]],["end_defrag",2],["buffer",20,2048,3,"exclusive",["pool",1]],["read",17,0,2]]"#,
        "15 abcd\n21 abcd\n",
        REPLAYED,
    ),
    (
        r#"[["pool",1,"tlsf",1,4096,2],["buffer",10,1024,3,"exclusive",["pool",1]],["buffer",11,1024,3,"exclusive",["pool",1]],["buffer",12,1024,3,"exclusive",["pool",1]],["buffer",13,1024,3,"exclusive",["pool",1]],["buffer",14,1024,3,"exclusive",["pool",1]],["buffer",15,1024,3,"exclusive",["pool",1]],["buffer",16,1024,3,"exclusive",["pool",1]],["buffer",17,1024,3,"exclusive",["pool",1]],["destroy",10],["destroy",12],["destroy",14],["destroy",16],["defrag",2,1,1024,0],["pass",2],["end_pass",2,[],[]],["buffer",20,2048,3,"exclusive",["pool",1]],["buffer",21,2048,3,"exclusive",["pool",1]]]"#,
        "stopped 17 NO_ROOM\n",
        STOPPED,
    ),
    (
        r#"[["pool",1,"tlsf",1,4096,1],["buffer",2,1024,3,"exclusive",["pool",1]],["buffer",3,1024,3,"exclusive",["pool",1]],["buffer",4,1024,3,"exclusive",["pool",1]],["buffer",5,1024,3,"exclusive",["pool",1]],["destroy",2],["destroy",4],["defrag",6,1,0,0],["pass",6],["buffer",7,2048,3,"exclusive",["pool",1]],["end_pass",6,[],[]]]"#,
        "stopped 9 NO_ROOM\n",
        STOPPED,
    ),
    (
        r#"[["pool",1,"tlsf",1,4096,2],["buffer",2,1024,3,"exclusive",["pool",1]],["buffer",3,1024,3,"exclusive",["pool",1]],["map",3],["destroy",2],["defrag",4,1,0,0],["pass",4],["end_pass",4,[],[3]]]"#,
        "refused 7 MAP_STATE\n",
        REFUSED,
    ),
    (
        r#"[["pool",1,"tlsf",1,4096,2],["buffer",2,1024,3,"exclusive",["pool",1]],["buffer",3,1024,3,"exclusive",["pool",1]],["destroy",2],["defrag",4,1,0,0],["pass",4],["end_pass",4,[3],[3]]]"#,
        "refused 6 OVERLAP\n",
        REFUSED,
    ),
    (
        r#"[["pool",1,"tlsf",1,4096,2],["buffer",2,1024,3,"exclusive",["dedicated",1]],["defrag",3,1,0,0],["pass",3],["end_pass",3,[2],[]]]"#,
        "refused 4 LIVE_ID\n",
        REFUSED,
    ),
    (
        r#"[["pool",1,"tlsf",2,4096,2],["buffer",2,64,1,"exclusive",["pool",1]],["buffer",3,64,1,"exclusive",["pool",1]],["map",3],["write",3,0,"aa"],["destroy",2],["defrag",4,1,0,0],["pass",4],["end_pass",4,[],[]],["read",3,0,1]]"#,
        "9 aa\n",
        REPLAYED,
    ),
    (
        r#"[["pool",1,"tlsf",2,4096,2],["buffer",2,64,1,"exclusive",["pool",1]],["buffer",3,64,1,"exclusive",["pool",1]],["map",3],["write",3,0,"aa"],["destroy",2],["defrag",4,1,0,0],["pass",4],["end_pass",4,[],[]],["invalidate",3,0,1],["read",3,0,1]]"#,
        "refused 10 READ_UNDEFINED\n",
        REFUSED,
    ),
    (
        r#"[["pool",1,"tlsf",1,4096,2],["buffer",2,16,3,"exclusive",["pool",1]],["buffer",3,16,2,"exclusive",["dedicated",1]],["semaphore",4,0],["map",2],["write",2,0,"01020304"],["defrag",5,1,0,0],["pass",5],["submit",0,[[[],[["copy",2,3,[[0,0,4]]],["barrier",[[4096,4096,16384,8192]],[],[]]],[[4,1,65536]]]]],["wait",[[4,1]]],["end_pass",5,[],[]],["map",3],["read",3,0,4]]"#,
        "12 01020304\n",
        REPLAYED,
    ),
    (
        r#"[["pool",1,"tlsf",1,4096,2],["buffer",2,16,3,"exclusive",["pool",1]],["defrag",3,1,0,0],["pass",3],["submit",0,[[[],[["fill",2,0,4,0]],[]]]],["end_pass",3,[],[]]]"#,
        "refused 4.0.0 PASS_WRITE\n",
        REFUSED,
    ),
    (
        r#"[["pool",1,"tlsf",1,4096,2],["buffer",2,16,3,"exclusive",["pool",1]],["buffer",3,16,2,"exclusive",["dedicated",1]],["semaphore",4,0],["map",2],["write",2,0,"01020304"],["defrag",5,1,0,0],["pass",5],["submit",0,[[[],[["copy",2,3,[[0,0,4]]]],[[4,1,65536]]]]],["end_pass",5,[],[]]]"#,
        "refused 9 PASS_BUSY\n",
        REFUSED,
    ),
    (
        r#"[["pool",1,"linear",1,4096,1],["defrag",2,1,0,0]]"#,
        "refused 1 POOL_KIND\n",
        REFUSED,
    ),
    (
        r#"[["pool",1,"tlsf",1,65536,1],["buffer",9,8192,3,"exclusive",["pool",1]],["buffer",2,8192,3,"exclusive",["pool",1]],["buffer",3,16,2,"exclusive",["dedicated",1]],["semaphore",4,0],["map",2],["write",2,8188,"01020304"],["destroy",9],["defrag",5,1,0,0],["pass",5],["submit",0,[[[],[["copy",2,3,[[8188,0,4]]],["barrier",[[4096,4096,16384,8192]],[],[]]],[[4,1,65536]]]]],["wait",[[4,1]]],["end_pass",5,[],[]],["map",3],["read",3,0,4],["read",2,8188,4]]"#,
        "14 01020304\n15 01020304\n",
        REPLAYED,
    ),
    (
        r#"[["pool",1,"tlsf",1,65536,1],["buffer",9,8192,3,"exclusive",["pool",1]],["buffer",2,8192,3,"exclusive",["pool",1]],["map",2],["destroy",9],["defrag",5,1,0,0],["pass",5],["unmap",2],["destroy",2]]"#,
        "refused 8 PASS_STATE\n",
        REFUSED,
    ),
    (
        r#"[["pool",1,"tlsf",1,4096,2],["pool",2,"tlsf",1,4096,2],["defrag",3,1,0,0],["defrag",4,2,0,0],["pass",3],["pass",4]]"#,
        "refused 5 PASS_STATE\n",
        REFUSED,
    ),
    (
        r#"[["pool",1,"tlsf",1,4096,2],["defrag",2,1,0,0],["end_defrag",2],["defrag",3,1,0,0],["pass",3],["end_pass",3,[],[]],["end_defrag",3],["drop_pool",1]]"#,
        "",
        REPLAYED,
    ),
    (
        r#"[["pool",1,"tlsf",0,4096,1],["buffer",2,256,3,"exclusive",["pool",1]],["image",3,"R8_UINT",8,8,1,1,"optimal",3,"exclusive",["pool",1]],["buffer",4,256,2,"exclusive",["dedicated",1]],["semaphore",5,0],["submit",0,[[[],[["barrier",[],[],[[0,0,4096,4096,4294967295,4294967295,3,0,7,[0,1,0,1]]]],["clear",3,7,[9,0,0,0],[[0,1,0,1]]]],[[5,1,65536]]]]],["wait",[[5,1]]],["destroy",2],["defrag",6,1,0,0],["pass",6],["end_pass",6,[],[]],["submit",0,[[[],[["barrier",[],[],[[4096,4096,4096,2048,4294967295,4294967295,3,7,6,[0,1,0,1]]]],["copy_out",3,6,4,[[0,0,0,0,0,1,0,0,8,8]]],["barrier",[[4096,4096,16384,8192]],[],[]]],[[5,2,65536]]]]],["wait",[[5,2]]],["map",4],["read",4,60,4]]"#,
        "14 09090909\n",
        REPLAYED,
    ),
];
