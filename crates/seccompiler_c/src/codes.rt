// What the exported functions answer if they have no other answer.

/// Memory ran out. Each function says in place of which answers it may come.
pub const SECCOMPILER_OUT_OF_MEMORY: i64 = -1;

/// The architecture is none of the three `AUDIT_ARCH_*` values that filters are compiled for.
pub const SECCOMPILER_UNKNOWN_ARCHITECTURE: i64 = -2;

/// The number names no layout.
pub const SECCOMPILER_UNKNOWN_LAYOUT: i64 = -3;

/// The bytes are no JSON text of filters, or one of its filters has a fault on the architecture.
pub const SECCOMPILER_REJECTED: i64 = -4;

/// No filter of the policy has the name, or the index.
pub const SECCOMPILER_NO_FILTER: i64 = -5;

/// The filter's program would have more than 4096 instructions.
pub const SECCOMPILER_TOO_LARGE: i64 = -6;

/// The program has more instructions than the caller's array.
pub const SECCOMPILER_NO_ROOM: i64 = -7;

/// The instructions are no program that passes `seccompiler_check`.
pub const SECCOMPILER_NOT_CHECKED: i64 = -8;

/// The number names no relation.
pub const SECCOMPILER_UNKNOWN_RELATION: i64 = -9;

/// No system call of the architecture has the name.
pub const SECCOMPILER_UNKNOWN_CALL: i64 = -10;

/// A kind names no action.
pub const SECCOMPILER_UNKNOWN_ACTION: i64 = -11;

/// The chains count more or fewer rules than there are, or the rules more or fewer conditions.
pub const SECCOMPILER_BAD_COUNTS: i64 = -12;

/// A condition's argument is above 5.
pub const SECCOMPILER_BAD_ARGUMENT: i64 = -13;

/// A condition's length is unknown.
pub const SECCOMPILER_UNKNOWN_LENGTH: i64 = -14;

/// A condition's operator is unknown.
pub const SECCOMPILER_UNKNOWN_OPERATOR: i64 = -15;

/// A rule has no conditions.
pub const SECCOMPILER_EMPTY_RULE: i64 = -16;

/// The two actions are equal.
pub const SECCOMPILER_EQUAL_ACTIONS: i64 = -17;

/// The numbers of the chains don't ascend strictly.
pub const SECCOMPILER_BAD_ORDER: i64 = -18;

/// A chain's number doesn't fit 32 bits.
pub const SECCOMPILER_BAD_NUMBER: i64 = -19;

/// A comparison looked at as many sets of calls as was allowed, and found neither answer.
pub const SECCOMPILER_UNDECIDED: i64 = -20;

/// A file can't be read. No function here returns it: it is `seccompiler_file.h`'s own.
pub const SECCOMPILER_NO_FILE: i64 = -100;

/// The version of the interface, 1.0: the first number times 65536, and the second one.
pub const SECCOMPILER_VERSION: u32 = 0x1_0000;

/// The layout of the Rust crate, which tests one call number after the other.
pub const SECCOMPILER_LAYOUT_LINEAR: u32 = 0;

/// The layout of a tree of tests, which distinguish ranges of call numbers.
pub const SECCOMPILER_LAYOUT_TREE: u32 = 1;

/// The low 4 bytes of the argument count.
pub const SECCOMPILER_DWORD: u8 = 4;

/// All 8 bytes of the argument count.
pub const SECCOMPILER_QWORD: u8 = 8;

/// The argument equals the value.
pub const SECCOMPILER_EQ: u8 = 0;

/// The argument differs from the value.
pub const SECCOMPILER_NE: u8 = 1;

/// The argument is greater than the value.
pub const SECCOMPILER_GT: u8 = 2;

/// The argument is at least the value.
pub const SECCOMPILER_GE: u8 = 3;

/// The argument is less than the value.
pub const SECCOMPILER_LT: u8 = 4;

/// The argument is at most the value.
pub const SECCOMPILER_LE: u8 = 5;

/// The argument and the value have the same bits under the mask.
pub const SECCOMPILER_MASKED_EQ: u8 = 6;

/// Two programs return the same value.
pub const SECCOMPILER_ALIKE: u32 = 0;

/// The first program permits as much as the second, or less.
pub const SECCOMPILER_AT_MOST_AS_PERMISSIVE: u32 = 1;

/// In place of an architecture: all calls, of whatever architecture.
pub const SECCOMPILER_ALL_CALLS: u32 = 0;

/// The kind of `SeccompAction::Allow`, as the others below of `linux/seccomp.h`.
pub const SECCOMP_RET_ALLOW: u32 = 0x7fff_0000;

/// The kind of `SeccompAction::Errno`.
pub const SECCOMP_RET_ERRNO: u32 = 0x0005_0000;

/// The kind of `SeccompAction::KillThread`.
pub const SECCOMP_RET_KILL_THREAD: u32 = 0;

/// The kind of `SeccompAction::KillProcess`.
pub const SECCOMP_RET_KILL_PROCESS: u32 = 0x8000_0000;

/// The kind of `SeccompAction::Log`.
pub const SECCOMP_RET_LOG: u32 = 0x7ffc_0000;

/// The kind of `SeccompAction::Trace`.
pub const SECCOMP_RET_TRACE: u32 = 0x7ff0_0000;

/// The kind of `SeccompAction::Trap`.
pub const SECCOMP_RET_TRAP: u32 = 0x0003_0000;
