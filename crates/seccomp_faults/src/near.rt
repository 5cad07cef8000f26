// Names of calls that are like one that no call has.

ghost use Rattle.std.specs.Prelude.{◌≢◌, IfOk, IfSome, None};
ghost use Rattle.seccompiler.specs.Architecture.{table_of};
ghost use Rattle.seccompiler.specs.SyscallTable.{number_of};

use seccompiler::{SyscallTable, TargetArch};
use std::alloc::{AllocError, Global};
use strsim::osa_distance;

// The most bytes of a name for which a like one is looked for.
const LONGEST: usize = 64;

// Names that people write, each before the calls that they mean by it: C functions, calls of 32-bit architectures, and calls
// that newer architectures lack.
const MEANT: &str = "\
_exit exit_group, _llseek lseek, access faccessat, alarm setitimer, chmod fchmodat, chown fchownat, creat openat, dup2 dup3, \
epoll_create epoll_create1, epoll_wait epoll_pwait, eventfd eventfd2, execl execve, execlp execve, execv execve, execvp execve, \
fcntl64 fcntl, fork clone, fstat64 fstat, fstatat newfstatat, fstatat64 newfstatat, fstatfs64 fstatfs, fstatvfs fstatfs, \
ftruncate64 ftruncate, futex_time64 futex, futimens utimensat, futimesat utimensat, getdents getdents64, getpgrp getpgid, \
inotify_init inotify_init1, lchown fchownat, link linkat, llseek lseek, lseek64 lseek, lstat newfstatat, \
lstat64 lstat newfstatat, lutimes utimensat, mkdir mkdirat, mkfifo mknod mknodat, mknod mknodat, mmap2 mmap, mmap64 mmap, \
newstat stat newfstatat, open openat, open64 open openat, openat64 openat, opendir open openat, pipe pipe2, poll ppoll, \
posix_fadvise fadvise64, prlimit prlimit64, pselect pselect6, pthread_create clone3, raise tgkill, readlink readlinkat, \
recv recvfrom, rename renameat renameat2, renameat renameat2, rmdir unlinkat, sched_getcpu getcpu, select pselect6, \
send sendto, sendfile64 sendfile, sigaction rt_sigaction, signal rt_sigaction, signalfd signalfd4, sigpending rt_sigpending, \
sigprocmask rt_sigprocmask, sigqueue rt_sigqueueinfo, sigreturn rt_sigreturn, sigsuspend rt_sigsuspend, \
sigtimedwait rt_sigtimedwait, sigwait rt_sigtimedwait, sleep clock_nanosleep, socketcall socket, stat newfstatat, \
stat64 stat newfstatat, statfs64 statfs, statvfs statfs, symlink symlinkat, truncate64 truncate, \
ugetrlimit getrlimit prlimit64, umount umount2, unlink unlinkat, usleep clock_nanosleep, utime utimensat, utimes utimensat, \
vfork clone, wait wait4, wait3 wait4, waitpid wait4";

// The first call of the architecture that people mean by a name.
fn meant_call(target: TargetArch, name: &str) -> Option<&'static str>
    ensures { IfSome result (λ near. number_of (table_of target) near.now ≢ None) }
{
    let table = SyscallTable::new(target);
    for names in MEANT.split(", ") {
        let Some((written, calls)) = names.split_once(' ') else {
            continue;
        };
        if written != name {
            continue;
        }
        for meant in calls.split(' ') {
            if table.get_syscall_nr(meant).is_some() {
                return Some(meant);
            }
        }
    }
    None
}

/// The call of an architecture that is most likely meant by a name which none has: the one that people mean by it, or else the first
/// of the nearest call names, if it is at most one edit away, or at most one for every three bytes. An edit inserts, removes or
/// replaces a character, or swaps two neighbours.
///
/// # Errors
///
/// `AllocError` if memory runs out.
pub(crate) fn near_name(
    alloc: Global,
    target: TargetArch,
    name: &str,
) -> Result<Option<&'static str>, AllocError>
    ensures { IfOk result (λ near. IfSome near (λ near. number_of (table_of target) near.now ≢ None)) }
{
    if let Some(meant) = meant_call(target, name) {
        return Ok(Some(meant));
    }
    if name.len() > LONGEST {
        return Ok(None);
    }
    let table = SyscallTable::new(target);
    let mut best = None;
    let mut least = (name.len() / 3).max(1) + 1;
    for place in 0..table.numbers().len() {
        let call = table.name(place);
        let distance = osa_distance(alloc, name, call)?;
        if distance < least {
            least = distance;
            best = Some(call);
        }
    }
    match best {
        Some(near) if table.get_syscall_nr(near).is_some() => Ok(Some(near)),
        _ => Ok(None),
    }
}
