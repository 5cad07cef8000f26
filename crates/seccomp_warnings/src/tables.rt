// What is known of calls, by the prototypes of Linux 6.12 (include/linux/syscalls.h) and the manual pages (section 2). The definitions of
// warnings cite these tables, and tools/check-documents compares the lists of docs/CHECKS.md with them.

// Rows that have all but one field in common.
macro_rules! rows {
    ($($index:literal: $($name:literal)*;)*) => { [$($(($name, $index),)*)*] };
    ($($index:literal $flag:literal $closing:literal: $($name:literal)*;)*) => { [$($(($name, $index, $flag, $closing),)*)*] };
    ($($name:literal => $($other:literal)*;)*) => { [$($(($name, $other),)*)*] };
}

/// The arguments of calls on files, programs, mounts and sockets that are addresses: the index of the argument, and the calls.
pub(crate) const ADDRESSES: [(&str, u8); 175] = rows! {
    0: "access" "acct" "chdir" "chmod" "chown" "chroot" "creat" "execve" "fsopen" "getcwd" "getxattr" "lchown"
        "lgetxattr" "link" "listmount" "listxattr" "llistxattr" "lremovexattr" "lsetxattr" "lstat" "memfd_create"
        "mkdir" "mknod" "mount" "open" "pipe" "pipe2" "pivot_root" "readlink" "removexattr" "rename" "rmdir" "setxattr"
        "stat" "statfs" "statmount" "swapoff" "swapon" "symlink" "symlinkat" "truncate" "umount2" "unlink" "uselib"
        "utime" "utimes";
    1: "accept" "accept4" "bind" "cachestat" "connect" "copy_file_range" "execve" "execveat" "faccessat" "faccessat2"
        "fchmodat" "fchmodat2" "fchownat" "fgetxattr" "flistxattr" "fremovexattr" "fsetxattr" "fspick" "fstat" "fstatfs"
        "futimesat" "getdents" "getdents64" "getpeername" "getsockname" "getxattr" "inotify_add_watch" "lgetxattr"
        "link" "linkat" "listmount" "listxattr" "llistxattr" "lremovexattr" "lsetxattr" "lstat" "mkdirat" "mknodat"
        "mount" "mount_setattr" "move_mount" "name_to_handle_at" "newfstatat" "open_by_handle_at" "open_tree" "openat"
        "openat2" "pivot_root" "pread64" "preadv" "preadv2" "pwrite64" "pwritev" "pwritev2" "quotactl" "read" "readlink"
        "readlinkat" "readv" "recvfrom" "recvmmsg" "recvmsg" "removexattr" "rename" "renameat" "renameat2" "sendmmsg"
        "sendmsg" "sendto" "setxattr" "splice" "stat" "statfs" "statmount" "statx" "symlink" "unlinkat" "ustat" "utime"
        "utimensat" "utimes" "vmsplice" "write" "writev";
    2: "accept" "accept4" "cachestat" "execve" "execveat" "fgetxattr" "fsconfig" "fsetxattr" "futimesat" "getpeername"
        "getsockname" "getxattr" "lgetxattr" "lsetxattr" "mount" "name_to_handle_at" "newfstatat" "openat2" "readlinkat"
        "sendfile" "setxattr" "symlinkat" "utimensat";
    3: "copy_file_range" "execveat" "fsconfig" "getsockopt" "linkat" "mount_setattr" "move_mount" "name_to_handle_at"
        "quotactl" "renameat" "renameat2" "setsockopt" "socketpair" "splice";
    4: "fanotify_mark" "getsockopt" "mount" "recvfrom" "recvmmsg" "sendto" "statx";
    5: "recvfrom";
};

/// The arguments that are signed.
pub(crate) const SIGNED: [(&str, u8); 10] = rows! {
    0: "kill" "tkill" "wait4" "openat" "prlimit64";
    1: "lseek";
    2: "setpriority" "poll";
    3: "epoll_wait" "epoll_pwait";
};

/// A flag that changes nothing of what a call is denied for: the call, the index of the argument that has it, the flag, and whether it
/// closes a descriptor on exec, which is no reason to deny a call.
pub(crate) type Flag = (&'static str, u8, u64, bool);

/// All of them: O_CLOEXEC and SOCK_CLOEXEC, CLONE_FILES, MS_NOATIME, MFD_CLOEXEC, PROT_READ and PROT_SEM.
pub(crate) const FLAGS: [(&str, u8, u64, bool); 24] = rows! {
    0 0x8_0000 true: "epoll_create1" "inotify_init1" "userfaultfd";
    1 0x8_0000 true: "open" "socket" "socketpair" "pipe2" "eventfd2" "timerfd_create";
    2 0x8_0000 true: "openat" "dup3" "open_by_handle_at";
    3 0x8_0000 true: "accept4" "signalfd4";
    0 0x400 false: "clone" "unshare";
    3 0x400 false: "mount";
    1 1 true: "memfd_create";
    2 1 false: "mmap" "mprotect" "pkey_mprotect";
    2 8 false: "mmap" "mprotect" "pkey_mprotect";
};

/// A call, and another one by which the same can be done: the call, the index of its argument that says what is asked, those bits of it
/// that ask for more, the other call, the index of the argument in which that one takes the same, and the bits of what is asked that it
/// takes there; 0 if it takes them elsewhere, as in memory.
pub(crate) type Detour = (&'static str, u8, u64, &'static str, u8, u64);

/// All of them. More is asked of open and openat by O_RDWR, of the calls on pages by PROT_EXEC, of clone and unshare by
/// CLONE_NEWUSER, and of socket by another family. unshare takes the flags of clone that are for new namespaces.
pub(crate) const DETOURS: [(&str, u8, u64, &str, u8, u64); 16] = [
    ("open", 1, 2, "openat", 2, 0xffff_ffff_ffff_ffff),
    ("open", 1, 2, "openat2", 0, 0),
    ("open", 1, 2, "creat", 0, 0),
    ("open", 1, 2, "io_uring_setup", 0, 0),
    ("openat", 2, 2, "open", 1, 0xffff_ffff_ffff_ffff),
    ("openat", 2, 2, "openat2", 0, 0),
    ("openat", 2, 2, "creat", 0, 0),
    ("openat", 2, 2, "io_uring_setup", 0, 0),
    ("mmap", 2, 4, "mprotect", 2, 0xffff_ffff_ffff_ffff),
    ("mmap", 2, 4, "pkey_mprotect", 2, 0xffff_ffff_ffff_ffff),
    ("mprotect", 2, 4, "pkey_mprotect", 2, 0xffff_ffff_ffff_ffff),
    ("pkey_mprotect", 2, 4, "mprotect", 2, 0xffff_ffff_ffff_ffff),
    ("clone", 0, 0x1000_0000, "unshare", 0, 0x7e02_0080),
    ("unshare", 0, 0x1000_0000, "clone", 0, 0xffff_ffff_ffff_ffff),
    ("unshare", 0, 0x1000_0000, "clone3", 0, 0),
    ("socket", 0, 16, "io_uring_setup", 0, 0),
];

/// A call, and another one by which all that it does can be done.
pub(crate) const SIBLINGS: [(&str, &str); 41] = rows! {
    "open" => "openat" "openat2" "creat" "io_uring_setup";
    "openat" => "open" "openat2" "creat" "io_uring_setup";
    "creat" => "open" "openat" "openat2" "io_uring_setup";
    "execve" => "execveat";
    "mount" => "move_mount" "fsmount";
    "ptrace" => "process_vm_writev";
    "mprotect" => "pkey_mprotect";
    "kill" => "tgkill" "tkill" "rt_sigqueueinfo" "pidfd_send_signal";
    "unshare" => "clone" "clone3";
    "fork" => "vfork" "clone" "clone3";
    "clone" => "fork" "vfork";
    "socket" => "io_uring_setup";
    "connect" => "io_uring_setup";
    "unlink" => "unlinkat";
    "rmdir" => "unlinkat";
    "rename" => "renameat" "renameat2";
    "mkdir" => "mkdirat";
    "mknod" => "mknodat";
    "link" => "linkat";
    "symlink" => "symlinkat";
    "chmod" => "fchmodat" "fchmodat2";
    "chown" => "fchownat";
};
