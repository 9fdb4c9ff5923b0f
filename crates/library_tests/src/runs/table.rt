use vk_run::Status;
use vk_trace::RunError;

/// How a run ends.
pub type Ending = Result<Status, RunError>;

/// A trace, what is written for it, and how the run ends.
pub type Row = (&'static str, &'static str, Ending);

/// Each entry is replayed.
pub const REPLAYED: Ending = Ok(Status::Replayed);

/// The trace breaks a rule.
pub const REFUSED: Ending = Ok(Status::Refused);

/// An entry finds no room.
pub const STOPPED: Ending = Ok(Status::Stopped);

/// The input is no trace.
pub const NO_TRACE: Ending = Err(RunError::NotTrace);

/// There is no memory left.
pub const NO_MEMORY: Ending = Err(RunError::NoMemory);

/// A buffer is filled, and read by the host after a barrier and a wait.
pub const FILL_AND_READ: &str =
    r#"[["buffer",1,16,3,"exclusive",["dedicated",1]],["semaphore",2,0],["submit",0,[[[],[["fill",1,0,16,67305985],["barrier",[[4096,4096,16384,8192]],[],[]]],[[2,1,65536]]]]],["wait",[[2,1]]],["map",1],["read",1,0,4]]"#;

/// Two fills side by side, which are waited for and read.
pub const TWO_FILLS: &str =
    r#"[["buffer",1,16,3,"exclusive",["dedicated",1]],["semaphore",2,0],["submit",0,[[[],[["fill",1,0,8,67305985],["fill",1,8,8,134678021],["barrier",[[4096,4096,16384,8192]],[],[]]],[[2,1,65536]]]]],["wait",[[2,1]]],["map",1],["read",1,4,8]]"#;

/// The host writes, flushes, invalidates and reads a buffer of 100 bytes that it reaches through a cache.
pub const CACHED_ACCESSES: &str =
    r#"[["buffer",1,100,3,"exclusive",["dedicated",2]],["map",1],["write",1,64,"aa"],["flush",1,64,1],["invalidate",1,64,1],["read",1,64,1]]"#;

/// Traces, with what is written for them and how the run ends.
pub static TRACES: [Row; 38] = [
    ("[]", "", REPLAYED),
    (
        r#"[["buffer",1,16,3,"exclusive",["dedicated",1]],["semaphore",2,0],["submit",0,[[[],[["fill",1,0,16,67305985],["barrier",[[4096,4096,16384,8192]],[],[]]],[[2,1,65536]]]]],["wait",[[2,1]]],["map",1],["read",1,0,4]]"#,
        "5 01020304\n",
        REPLAYED,
    ),
    (
        r#"[["buffer",1,16,3,"exclusive",["dedicated",1]],["semaphore",2,0],["submit",0,[[[],[["fill",1,0,16,67305985]],[[2,1,65536]]]]],["wait",[[2,1]]],["map",1],["read",1,0,4]]"#,
        "refused 5 HAZARD_RAW\n",
        REFUSED,
    ),
    (
        r#"[["buffer",1,16,3,"exclusive",["dedicated",1]],["semaphore",2,0],["submit",0,[[[],[["fill",1,0,16,67305985],["fill",1,0,16,67305985],["barrier",[[4096,4096,16384,8192]],[],[]]],[[2,1,65536]]]]],["wait",[[2,1]]],["map",1],["read",1,0,4]]"#,
        "refused 2.0.1 HAZARD_WAW\n",
        REFUSED,
    ),
    (
        r#"[["buffer",1,16,3,"exclusive",["dedicated",1]],["semaphore",2,0],["submit",0,[[[],[["fill",1,0,16,67305985],["barrier",[[4096,8192,16384,8192]],[],[]]],[[2,1,65536]]]]],["wait",[[2,1]]],["map",1],["read",1,0,4]]"#,
        "refused 2.0.1 STAGE\n",
        REFUSED,
    ),
    (TWO_FILLS, "5 0102030405060708\n", REPLAYED),
    (
        r#"[["buffer",1,18,3,"exclusive",["dedicated",1]],["semaphore",2,0],["submit",0,[[[],[["fill",1,0,"whole",67305985],["barrier",[[4096,4096,16384,8192]],[],[]]],[[2,1,65536]]]]],["wait",[[2,1]]],["map",1],["read",1,12,4]]"#,
        "5 01020304\n",
        REPLAYED,
    ),
    (
        r#"[["buffer",1,18,3,"exclusive",["dedicated",1]],["semaphore",2,0],["submit",0,[[[],[["fill",1,0,"whole",67305985],["barrier",[[4096,4096,16384,8192]],[],[]]],[[2,1,65536]]]]],["wait",[[2,1]]],["map",1],["read",1,12,5]]"#,
        "refused 5 READ_UNDEFINED\n",
        REFUSED,
    ),
    (
        r#"[["semaphore",1,0],["semaphore",1,0]]"#,
        "refused 1 NEW_ID\n",
        REFUSED,
    ),
    (
        r#"[["semaphore",1,0],["wait",[[1,1]]]]"#,
        "refused 1 WAIT_NEVER\n",
        REFUSED,
    ),
    (
        r#"[["buffer",1,4194304,1,"exclusive",["dedicated",1]],["buffer",2,16,1,"exclusive",["dedicated",1]]]"#,
        "stopped 1 NO_ROOM\n",
        STOPPED,
    ),
    (
        r#"[["buffer",1,4194304,1,"exclusive",["dedicated",1]]]"#,
        "",
        REPLAYED,
    ),
    (
        r#"[["buffer",1,0,0,"exclusive",["dedicated",3]]]"#,
        "refused 0 SIZE\n",
        REFUSED,
    ),
    (
        r#"[["buffer",1,16,0,"exclusive",["dedicated",3]]]"#,
        "refused 0 USAGE\n",
        REFUSED,
    ),
    (
        r#"[["buffer",1,16,3,"exclusive",["dedicated",3]]]"#,
        "refused 0 MEMORY_TYPE\n",
        REFUSED,
    ),
    (r#"[["wait",[]],["wait",[]]]"#, "refused 0 SIZE\n", REFUSED),
    (
        r#"[["semaphore",1,0],["submit",0,[[[],[],[[1,1,65536],[1,1,65536]]]]]]"#,
        "refused 1.0.s1 SIGNAL_VALUE\n",
        REFUSED,
    ),
    (r#"[["submit",0,[]]]"#, "", REPLAYED),
    (
        r#"[["buffer",1,16,3,"exclusive",["dedicated",1]],["semaphore",2,0],["submit",0,[[[],[["fill",1,0,8,67305985],["fill",1,4,8,134678021],["barrier",[[4096,4096,16384,8192]],[],[]]],[[2,1,65536]]]]],["wait",[[2,1]]],["map",1],["read",1,4,8]]"#,
        "refused 2.0.1 HAZARD_WAW\n",
        REFUSED,
    ),
    (r#"[["semaphore",1,18446744073709551615]]"#, "", REPLAYED),
    (
        r#"[["buffer",1,16,3,"exclusive",["dedicated",1]],["semaphore",2,0],["submit",0,[[[],[["fill",1,0,16,67305985],["barrier",[[4096,4096,16384,8192]],[],[]]],[[2,1,65536]]]]],["wait",[[2,1]]],["map",1],["read",1,0,4],["buffer",3,4194304,1,"exclusive",["dedicated",1]]]"#,
        "5 01020304\nstopped 6 NO_ROOM\n",
        STOPPED,
    ),
    (
        r#"[["buffer",1,16,3,"concurrent",["dedicated",1]],["semaphore",2,0],["submit",0,[[[],[["fill",1,0,"whole",67305985],["barrier",[[4096,4096,16384,8192]],[],[]]],[[2,1,65536]]]]],["wait",[[2,1]]],["map",1],["read",1,0,4]]"#,
        "5 01020304\n",
        REPLAYED,
    ),
    (
        r#"[["submit",0,[[[],[["barrier",[],[],[]]],[]],[[],[],[]]]],["submit",0,[]]]"#,
        "",
        REPLAYED,
    ),
    (
        "\t[\r\n [ \"semaphore\" , 4294967295 , 0 ] ]\n",
        "",
        REPLAYED,
    ),
    (r#"[["s\u0065maphore",0,0]]"#, "", REPLAYED),
    (
        r#"[["semaphore",0,0],["semaphore",0,0]]"#,
        "refused 1 NEW_ID\n",
        REFUSED,
    ),
    (
        r#"[["event",1],["submit",0,[[[],[["set",1,[[4096,4096,4096,2048]]],["await",1,[[4096,4096,4096,6144]]]],[]]]]]"#,
        "refused 1.0.1 EVENT_DEPENDENCY\n",
        REFUSED,
    ),
    (
        r#"[["semaphore",1,5],["signal",1,5]]"#,
        "refused 1 SIGNAL_VALUE\n",
        REFUSED,
    ),
    (r#"[["submit",3,[]]]"#, "", REPLAYED),
    (r#"[["submit",4,[]]]"#, "refused 0 QUEUE\n", REFUSED),
    (
        r#"[["semaphore",1,0],["submit",0,[[[],[],[[1,1,65536]]]]],["submit",1,[[[],[],[[1,2,65536]]]]]]"#,
        "refused 2.0.s0 SIGNAL_ORDER\n",
        REFUSED,
    ),
    (
        r#"[["semaphore",1,0],["semaphore",2,0],["submit",0,[[[[1,1,65536]],[],[]],[[],[],[[2,1,65536]]]]],["wait",[[2,1]]]]"#,
        "refused 3 WAIT_NEVER\n",
        REFUSED,
    ),
    (
        r#"[["submit",0,[[[[1,1,65536]],[],[]]]]]"#,
        "refused 0.0.w0 LIVE_ID\n",
        REFUSED,
    ),
    (
        r#"[["buffer",1,16,3,"exclusive",["dedicated",1]],["semaphore",2,0],["submit",0,[[[[2,1,65536]],[["fill",1,0,15,1]],[]]]],["signal",2,1]]"#,
        "refused 2.0.0 ALIGN\n",
        REFUSED,
    ),
    (
        r#"[["buffer",1,16,3,"exclusive",["dedicated",1]],["semaphore",2,0],["submit",0,[[[[2,1,65536]],[["fill",1,0,15,1]],[]]]]]"#,
        "",
        REPLAYED,
    ),
    (
        r#"[["buffer",1,16,3,"exclusive",["dedicated",1]],["semaphore",2,0],["submit",1,[[[[2,1,4096]],[["fill",1,4,8,134678021],["barrier",[[4096,4096,16384,8192]],[],[]]],[[2,2,65536]]]]],["submit",0,[[[],[["fill",1,0,16,67305985]],[[2,1,4096]]]]],["wait",[[2,2]]],["map",1],["read",1,0,16]]"#,
        "6 01020304050607080506070801020304\n",
        REPLAYED,
    ),
    (
        r#"[["buffer",1,16,3,"concurrent",["dedicated",1]],["semaphore",2,0],["semaphore",3,0],["submit",0,[[[],[["fill",1,0,8,67305985],["barrier",[[4096,4096,16384,8192]],[],[]]],[[2,1,65536]]]]],["submit",1,[[[],[["fill",1,8,8,134678021],["barrier",[[4096,4096,16384,8192]],[],[]]],[[3,1,65536]]]]],["wait",[[2,1],[3,1]]],["map",1],["read",1,0,16]]"#,
        "7 01020304010203040506070805060708\n",
        REPLAYED,
    ),
    (
        r#"[["buffer",1,12288,3,"concurrent",["dedicated",1]],["semaphore",2,0],["semaphore",3,0],["submit",0,[[[],[["fill",1,0,8192,67305985],["barrier",[[4096,4096,16384,8192]],[],[]]],[[2,1,65536]]]]],["submit",2,[[[],[["fill",1,8192,4096,134678021],["barrier",[[4096,4096,16384,8192]],[],[]]],[[3,1,65536]]]]],["wait",[[3,1]]],["wait",[[2,1]]],["map",1],["read",1,8188,8]]"#,
        "8 0102030405060708\n",
        REPLAYED,
    ),
];

/// Traces of memory objects, host writes, updates and copies, with what is written and how they end.
pub static UPLOADS: [Row; 14] = [
    (
        r#"[["memory",1,1,64],["buffer",2,16,3,"exclusive",["memory",1,0]],["map",2],["map",2]]"#,
        "refused 3 MAP_STATE\n",
        REFUSED,
    ),
    (
        r#"[["memory",1,1,4194304],["memory",2,1,1]]"#,
        "stopped 1 NO_ROOM\n",
        STOPPED,
    ),
    (
        r#"[["memory",1,1,4096],["buffer",2,256,1,"exclusive",["memory",1,0]],["buffer",3,256,3,"exclusive",["dedicated",0]],["buffer",4,256,2,"exclusive",["memory",1,256]],["semaphore",5,0],["map",2],["write",2,0,"48656c6c6f"],["submit",0,[[[],[["copy",2,3,[[0,16,5]]],["barrier",[[4096,4096,4096,2048]],[],[]],["copy",3,4,[[16,0,5]]],["barrier",[[4096,4096,16384,8192]],[],[]]],[[5,1,65536]]]]],["wait",[[5,1]]],["read",4,0,5],["unmap",4],["destroy",2],["destroy",4],["destroy",3],["free",1]]"#,
        "9 48656c6c6f\n",
        REPLAYED,
    ),
    (
        r#"[["memory",1,1,4096],["buffer",2,256,1,"exclusive",["memory",1,0]],["buffer",3,256,3,"exclusive",["dedicated",0]],["buffer",4,256,2,"exclusive",["memory",1,256]],["semaphore",5,0],["map",2],["write",2,0,"48656c6c6f"],["submit",0,[[[],[["copy",2,3,[[0,16,5]]],["copy",3,4,[[16,0,5]]],["barrier",[[4096,4096,16384,8192]],[],[]]],[[5,1,65536]]]]],["wait",[[5,1]]],["read",4,0,5]]"#,
        "refused 7.0.1 HAZARD_RAW\n",
        REFUSED,
    ),
    (
        r#"[["memory",1,1,4096],["buffer",2,256,1,"exclusive",["memory",1,0]],["buffer",3,256,3,"exclusive",["dedicated",0]],["buffer",4,256,2,"exclusive",["memory",1,256]],["semaphore",5,0],["map",2],["write",2,0,"48656c6c6f"],["submit",0,[[[],[["copy",2,3,[[0,16,5]]],["barrier",[[4096,4096,4096,2048]],[],[]],["copy",3,4,[[16,0,5]]],["barrier",[[4096,4096,16384,8192]],[],[]]],[[5,1,65536]]]]],["write",2,0,"00"]]"#,
        "refused 8 HAZARD_WAR\n",
        REFUSED,
    ),
    (
        r#"[["memory",1,1,4096],["buffer",2,256,1,"exclusive",["memory",1,0]],["buffer",3,256,3,"exclusive",["dedicated",0]],["buffer",4,256,2,"exclusive",["memory",1,256]],["semaphore",5,0],["map",2],["write",2,0,"48656c6c6f"],["submit",0,[[[],[["copy",2,3,[[0,16,5]]],["barrier",[[4096,4096,4096,2048]],[],[]],["copy",3,4,[[16,0,5]]],["barrier",[[4096,4096,16384,8192]],[],[]]],[[5,1,65536]]]]],["destroy",3]]"#,
        "refused 8 IN_USE\n",
        REFUSED,
    ),
    (
        r#"[["memory",1,1,4096],["buffer",2,256,1,"exclusive",["memory",1,0]],["buffer",3,256,3,"exclusive",["dedicated",0]],["buffer",4,256,2,"exclusive",["memory",1,256]],["semaphore",5,0],["map",2],["write",2,0,"48656c6c6f"],["submit",0,[[[],[["copy",2,3,[[0,16,5]]],["barrier",[[4096,4096,4096,2048]],[],[]],["copy",3,4,[[16,0,5]]],["barrier",[[4096,4096,16384,8192]],[],[]]],[[5,1,65536]]]]],["wait",[[5,1]]],["read",4,0,6]]"#,
        "refused 9 READ_UNDEFINED\n",
        REFUSED,
    ),
    (
        r#"[["memory",1,1,64],["buffer",2,16,1,"exclusive",["memory",1,0]],["free",1]]"#,
        "refused 2 IN_USE\n",
        REFUSED,
    ),
    (
        r#"[["memory",1,1,64],["buffer",2,32,1,"exclusive",["memory",1,0]],["buffer",3,32,1,"exclusive",["memory",1,16]]]"#,
        "refused 2 ALIASED\n",
        REFUSED,
    ),
    (
        r#"[["memory",1,1,64],["buffer",2,16,1,"exclusive",["memory",1,8]]]"#,
        "refused 1 BIND_ALIGN\n",
        REFUSED,
    ),
    (
        r#"[["memory",1,1,64],["buffer",2,33,1,"exclusive",["memory",1,32]]]"#,
        "refused 1 BIND_RANGE\n",
        REFUSED,
    ),
    (
        r#"[["buffer",1,32,3,"exclusive",["dedicated",1]],["semaphore",2,0],["submit",0,[[[],[["update",1,0,"0102030405060708"],["barrier",[[4096,4096,4096,2048]],[],[]],["copy",1,1,[[0,8,4],[4,12,4]]],["barrier",[[4096,4096,16384,8192]],[],[]]],[[2,1,65536]]]]],["wait",[[2,1]]],["map",1],["read",1,0,16]]"#,
        "5 01020304050607080102030405060708\n",
        REPLAYED,
    ),
    (
        r#"[["buffer",1,32,3,"exclusive",["dedicated",1]],["semaphore",2,0],["submit",0,[[[],[["update",1,0,"0102030405060708"],["barrier",[[4096,4096,4096,2048]],[],[]],["copy",1,1,[[0,4,8]]],["barrier",[[4096,4096,16384,8192]],[],[]]],[[2,1,65536]]]]],["wait",[[2,1]]],["map",1],["read",1,0,8]]"#,
        "refused 2.0.2 OVERLAP\n",
        REFUSED,
    ),
    (
        r#"[["buffer",1,32,3,"exclusive",["dedicated",1]],["semaphore",2,0],["submit",0,[[[],[["update",1,0,"010203"],["barrier",[[4096,4096,16384,8192]],[],[]]],[[2,1,65536]]]]],["wait",[[2,1]]],["map",1],["read",1,0,3]]"#,
        "refused 2.0.0 ALIGN\n",
        REFUSED,
    ),
];

/// Traces of memory that the host reaches through a cache, of dependencies on parts of buffers, and of
/// ownership transfers.
pub static CACHES: [Row; 12] = [
    (
        r#"[["buffer",1,16,1,"exclusive",["dedicated",2]],["buffer",2,16,2,"exclusive",["dedicated",1]],["semaphore",3,0],["map",1],["write",1,0,"0a0b0c0d"],["submit",0,[[[],[["copy",1,2,[[0,0,4]]],["barrier",[[4096,4096,16384,8192]],[],[]]],[[3,1,65536]]]]],["wait",[[3,1]]],["map",2],["read",2,0,4]]"#,
        "refused 5.0.0 HAZARD_RAW\n",
        REFUSED,
    ),
    (
        r#"[["buffer",1,16,1,"exclusive",["dedicated",2]],["buffer",2,16,2,"exclusive",["dedicated",1]],["semaphore",3,0],["map",1],["write",1,0,"0a0b0c0d"],["flush",1,0,4],["submit",0,[[[],[["copy",1,2,[[0,0,4]]],["barrier",[[4096,4096,16384,8192]],[],[]]],[[3,1,65536]]]]],["wait",[[3,1]]],["map",2],["read",2,0,4]]"#,
        "9 0a0b0c0d\n",
        REPLAYED,
    ),
    (
        r#"[["buffer",1,128,1,"exclusive",["dedicated",2]],["map",1],["write",1,0,"aa"],["write",1,64,"bb"],["invalidate",1,0,1],["read",1,64,1]]"#,
        "5 bb\n",
        REPLAYED,
    ),
    (
        r#"[["buffer",1,128,1,"exclusive",["dedicated",2]],["map",1],["write",1,0,"aa"],["write",1,64,"bb"],["invalidate",1,0,1],["read",1,64,1],["read",1,0,1]]"#,
        "refused 6 READ_UNDEFINED\n",
        REFUSED,
    ),
    (
        r#"[["buffer",1,16,3,"exclusive",["dedicated",0]],["buffer",2,16,2,"exclusive",["dedicated",1]],["semaphore",3,0],["submit",0,[[[],[["fill",1,0,16,67305985],["barrier",[],[[4096,4096,4096,0,0,1,1,0,"whole"]],[]]],[[3,1,65536]]]]],["submit",2,[[[[3,1,65536]],[["barrier",[],[[4096,0,4096,2048,0,1,1,0,"whole"]],[]],["copy",1,2,[[0,0,16]]],["barrier",[[4096,4096,16384,8192]],[],[]]],[[3,2,65536]]]]],["wait",[[3,2]]],["map",2],["read",2,0,4]]"#,
        "7 01020304\n",
        REPLAYED,
    ),
    (
        r#"[["buffer",1,16,3,"exclusive",["dedicated",0]],["buffer",2,16,2,"exclusive",["dedicated",1]],["semaphore",3,0],["submit",0,[[[],[["fill",1,0,16,67305985]],[[3,1,65536]]]]],["submit",2,[[[[3,1,65536]],[["barrier",[],[[4096,0,4096,2048,0,1,1,0,"whole"]],[]],["copy",1,2,[[0,0,16]]],["barrier",[[4096,4096,16384,8192]],[],[]]],[[3,2,65536]]]]],["wait",[[3,2]]],["map",2],["read",2,0,4]]"#,
        "refused 4.0.0 OWNER_PAIR\n",
        REFUSED,
    ),
    (
        r#"[["buffer",1,16,3,"exclusive",["dedicated",0]],["buffer",2,16,2,"exclusive",["dedicated",1]],["semaphore",3,0],["submit",0,[[[],[["fill",1,0,16,67305985],["barrier",[],[[4096,4096,4096,0,0,1,1,0,8]],[]]],[[3,1,65536]]]]],["submit",2,[[[[3,1,65536]],[["barrier",[],[[4096,0,4096,2048,0,1,1,0,"whole"]],[]],["copy",1,2,[[0,0,16]]],["barrier",[[4096,4096,16384,8192]],[],[]]],[[3,2,65536]]]]],["wait",[[3,2]]],["map",2],["read",2,0,4]]"#,
        "refused 3.0.1 OWNER_WHOLE\n",
        REFUSED,
    ),
    (
        r#"[["memory",1,2,4096],["buffer",2,16,3,"exclusive",["memory",1,16]]]"#,
        "refused 1 BIND_ALIGN\n",
        REFUSED,
    ),
    (
        r#"[["memory",1,2,4096],["buffer",2,16,3,"exclusive",["memory",1,64]]]"#,
        "",
        REPLAYED,
    ),
    (
        r#"[["memory",1,2,4096],["buffer",2,16,3,"exclusive",["memory",1,4096]]]"#,
        "refused 1 BIND_RANGE\n",
        REFUSED,
    ),
    (
        r#"[["buffer",1,32,3,"exclusive",["dedicated",0]],["buffer",2,32,2,"exclusive",["dedicated",1]],["semaphore",3,0],["submit",0,[[[],[["fill",1,0,32,67305985],["barrier",[],[[4096,4096,4096,2048,0,0,1,0,16]],[]],["copy",1,2,[[0,0,16]]],["barrier",[[4096,4096,16384,8192]],[],[]]],[[3,1,65536]]]]],["wait",[[3,1]]],["map",2],["read",2,12,4]]"#,
        "6 01020304\n",
        REPLAYED,
    ),
    (
        r#"[["buffer",1,32,3,"exclusive",["dedicated",0]],["buffer",2,32,2,"exclusive",["dedicated",1]],["semaphore",3,0],["submit",0,[[[],[["fill",1,0,32,67305985],["barrier",[],[[4096,4096,4096,2048,0,0,1,0,16]],[]],["copy",1,2,[[0,0,17]]],["barrier",[[4096,4096,16384,8192]],[],[]]],[[3,1,65536]]]]],["wait",[[3,1]]],["map",2],["read",2,12,4]]"#,
        "refused 3.0.2 HAZARD_RAW\n",
        REFUSED,
    ),
];

/// Texts that are no trace.
pub static NO_TRACES: [&str; 58] = [
    r#"[["image",1,"R8",8,8,1,1,"optimal",3,"exclusive",["dedicated",0]]]"#,
    r#"[["submit",0,[[[],[["clear",1,7,[0,0,0],[[0,1,0,1]]]],[]]]]]"#,
    r#"[["submit",0,[[[],[["barrier",[],[],[[0,0,4096,4096,0,0,2,0,7,0,1,0,1]]]],[]]]]]"#,
    r#"[["defrag",2,1,0]]"#,
    r#"[["pass",2,1]]"#,
    r#"[["pool",1,"tlsf",1,4096]]"#,
    r#"[["pool",1,"Tlsf",1,4096,2]]"#,
    r#"[["pool",1,"tlsf",1,4096,2],["drop_pool",1,1]]"#,
    r#"[["buffer",1,16,3,"exclusive",["pool_upper",1,0]]]"#,
    r#"[["end_pass",2,3,[]]]"#,
    r#"[["semaphore",4294967296,0]]"#,
    r#"[["semaphore",-1,0]]"#,
    r#"[["semaphore",1.0,0]]"#,
    r#"[["semaphore",1e0,0]]"#,
    r#"[["semaphore",-0,0]]"#,
    r#"[["semaphore",01,0]]"#,
    r#"[["semaphore",+1,0]]"#,
    r#"[["semaphore",1E0,0]]"#,
    r#"[["semaphore",null,0]]"#,
    r#"[["semaphore","1",0]]"#,
    r#"[["semaphore",true,0]]"#,
    r#"[["semaphore",{},0]]"#,
    r#"[["semaphore",1,0,0]]"#,
    r#"[["semaphore",1]]"#,
    r#"[["semaphore",1,18446744073709551616]]"#,
    "",
    "null",
    "{}",
    "[[]]",
    "[null]",
    r#"[["semaphore",1,0],]"#,
    r#"[["semaphore",1,0]"#,
    r#"[["semaphore",1,0]]]"#,
    r#"[["Semaphore",1,0]]"#,
    r#"[["semaphore",1,0]] x"#,
    "[1]",
    r#"[["wait",[[1,1,1]]]]"#,
    r#"[["wait",[1,1]]]"#,
    r#"[["wait"]]"#,
    r#"[["submit",0,[[[],[]]]]]"#,
    r#"[["submit",0,[[[],[],[[1,1]]]]]]"#,
    r#"[["submit",0,[[[],[["fill",1,0,"Whole",1]],[]]]]]"#,
    r#"[["submit",0,[[[],[["fill",1,0,-1,1]],[]]]]]"#,
    r#"[["submit",0,[[[],[["fill",1,0,4,4294967296]],[]]]]]"#,
    r#"[["submit",0,[[[],[["barrier",[[1,1,1]],[],[]]],[]]]]]"#,
    r#"[["submit",0,[[[],[["barrier",[],[[4096,4096,4096,4096,0,0,1,0]],[]]],[]]]]]"#,
    r#"[["submit",0,[[[],[["Fill",1,0,4,1]],[]]]]]"#,
    r#"[["buffer",1,16,3,"shared",["dedicated",1]]]"#,
    r#"[["buffer",1,16,3,"exclusive",["dedicated"]]]"#,
    r#"[["buffer",1,16,3,"exclusive",["dedicated",1,1]]]"#,
    r#"[["buffer",1,16,3,"exclusive",["pool"]]]"#,
    r#"[["buffer",1,16,3,"exclusive",1]]"#,
    r#"[["buffer",1,"16",3,"exclusive",["dedicated",1]]]"#,
    r#"[["map",[1]]]"#,
    r#"[["read",1,0,18446744073709551616]]"#,
    r#"[["read",1,0,1e1]]"#,
    "\u{feff}[]",
    "[[[[[[[[[[[[[[[[[[[[[[[[[[[[[[[[[[[[[[[[[[[[[[[[[[[[[[[[[[[[[[[[[[[[[[[[[[[[[[[[[[[[[[[[[[[[[[[[[[[[[[[[[[[[[[[[[[[[[[[[[[[[[[[[[[[[[[[[[[[[[[[[[[[[[[[[[[[[[[[[[[[[[[[[[[[[[[[[[[[[[[[[[[[[[[[[[[[[[[[[",
];
